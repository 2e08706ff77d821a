//! Checks the placement of a certificate that grows in portions.

ghost use Rattle.std.specs.Prelude.{◌≡◌, ◌↔◌, ◌≤◌, ◌+◌, [], length, IsTrue, IfOk, IfErr, IfNone, OnOk, Some, None, true};
ghost use Rattle.std.specs.List.{IsDistinct};
ghost use Rattle.audit_model.specs.Least.{IsLeast};
ghost use Rattle.audit_model.specs.EventCount.{event_count};
ghost use Rattle.audit_model.specs.Lanes.{same_lane};
ghost use Rattle.audit_model.specs.declared.certificate.Certificate.{Certificate as Sorted};
ghost use Rattle.audit_model.specs.declared.certificate.TheConstants.{MAX_LANES, MAX_EVENTS};
ghost use Rattle.audit_sightings.specs.Intake.{Taken, taken};
ghost use Rattle.audit_placement.specs.Entries.{entries};
ghost use Rattle.audit_order.specs.Grown.{Extends, Fits, HasRoom};
ghost use Rattle.audit_order.specs.Growing.{IsSound, placing_count};
ghost use Rattle.audit_placement.specs.Clean.{IsClean};
ghost use Rattle.audit_placement.specs.Keys.{key_at};
ghost use Rattle.audit_order.specs.Kept.{AreOf, Keeps, Stays};
ghost use Rattle.audit_placement.specs.Named.{AllNamed};
ghost use Rattle.audit_placement.specs.Shows.{ShowsPlaced, ShowsAnUnplaced};

use crate::fitting::{add_pairs, are_apart, are_of_lanes};
use crate::growing::Growing;
use audit_model::{Breach, Certificate, Extension, LanePairs, Listed, MAX_EVENTS, MAX_LANES};
use audit_placement::{PlacedKeys, Places, placed_breach, unplaced_breach};
use audit_sightings::Intake;
use std::alloc::{AllocError, Global};
use std::mem::replace;

/// A certificate that grows in portions, and the places of the sightings of an intake that grows.
#[derive(Drop)]
pub struct Placing {
    certificate: Certificate,
    places: Places,
    /// The client and the listen address of each lane.
    pairs: LanePairs,
    /// The number of events and drops of the certificate.
    events: usize,
    /// The number of arrivals and departures of the certificate, drops included.
    count: u32,
    alloc: Global,
}

fn no_certificate(alloc: Global) -> Certificate
    ensures lanes { result.lanes ≡ [] }
    ensures drops { result.drops ≡ [] }
    ensures skews { result.skews ≡ [] }
{
    Certificate {
        lanes: Listed::new(alloc),
        drops: Listed::new(alloc),
        skews: Listed::new(alloc),
    }
}

/// The places of a certificate's sightings, and the least breach of what it places. The keys are
/// right if it is clean.
fn judged(
    alloc: Global,
    intake: &Intake,
    certificate: &Certificate,
    keys: PlacedKeys,
    clean: bool,
) -> Result<(Places, Option<Breach>), AllocError>
    ensures places { (clean ≡ true → IsClean (taken intake.now) (key_at keys) (entries certificate.now)) →
        IfOk result (λ found. AreOf (taken intake.now) certificate.now found.0) }
    ensures least { (clean ≡ true → IsClean (taken intake.now) (key_at keys) (entries certificate.now)) →
        IfOk result (λ found. IsLeast (ShowsPlaced (taken intake.now) certificate.now) found.1) }
    ensures named { (clean ≡ true → IsClean (taken intake.now) (key_at keys) (entries certificate.now)) →
        IfOk result (λ found. IfNone found.1 (AllNamed (taken intake.now) certificate.now)) }
{
    if clean {
        return Ok((Places::Once(keys), None));
    }
    let (breach, first) = placed_breach(alloc, intake, certificate)?;
    Ok((Places::First(first), breach))
}

/// The keys, and whether they are those of a clean certificate.
fn keys_of(alloc: Global, places: Places) -> (PlacedKeys, bool)
    ensures { (taken : Taken) (certificate : Sorted) → AreOf taken certificate places → result.1 ≡ true → IsClean taken (key_at result.0) (entries certificate) }
{
    match places {
        Places::Once(keys) => (keys, true),
        Places::First(_) => (PlacedKeys::new(alloc), false),
    }
}

/// A certificate with its extension, the places of its sightings, and the least breach of what it
/// places.
#[derive(Drop)]
struct Settled {
    certificate: Certificate,
    places: Places,
    breach: Option<Breach>,
}

fn settle(alloc: Global, intake: &Intake, growing: Growing) -> Result<Settled, AllocError>
    requires apart { IsDistinct same_lane growing.lanes.items }
    requires few_lanes { length growing.lanes.items ≤ MAX_LANES }
    requires few_events { event_count growing.lanes.items + length growing.drops ≤ MAX_EVENTS }
    ensures lanes { IfOk result (λ settled. settled.certificate.lanes ≡ growing.lanes.items) }
    ensures drops { IfOk result (λ settled. settled.certificate.drops ≡ growing.drops) }
    ensures skews { IfOk result (λ settled. settled.certificate.skews ≡ []) }
    ensures places { IsSound (taken intake.now) growing → IfOk result (λ settled. AreOf (taken intake.now) settled.certificate settled.places) }
    ensures count { IsSound (taken intake.now) growing → IfOk result (λ settled. growing.count ≡ placing_count (entries settled.certificate)) }
    ensures least { IsSound (taken intake.now) growing → IfOk result (λ settled. IsLeast (ShowsPlaced (taken intake.now) settled.certificate) settled.breach) }
    ensures named { IsSound (taken intake.now) growing → IfOk result (λ settled. IfNone settled.breach (AllNamed (taken intake.now) settled.certificate)) }
{
    let Growing {
        lanes,
        drops,
        keys,
        clean,
        ..
    } = growing;
    let certificate = Certificate {
        lanes: Listed::from(lanes),
        drops,
        skews: Listed::new(alloc),
    };
    let (places, breach) = judged(alloc, intake, &certificate, keys, clean)?;
    Ok(Settled {
        certificate,
        places,
        breach,
    })
}

impl Placing {
    /// Nothing was added yet. Allocates no memory.
    pub fn new(alloc: Global) -> Placing
        ensures lanes { result.certificate.lanes ≡ [] }
        ensures drops { result.certificate.drops ≡ [] }
        ensures skews { result.certificate.skews ≡ [] }
        ensures keeps { (taken : Taken) → Keeps taken result }
    {
        Placing {
            certificate: no_certificate(alloc),
            places: Places::Once(PlacedKeys::new(alloc)),
            pairs: LanePairs::new(alloc),
            events: 0,
            count: 0,
            alloc,
        }
    }

    /// The certificate so far. Allocates no memory.
    pub fn certificate(&self) -> &Certificate
        ensures { result.now ≡ self.now.certificate }
    {
        &self.certificate
    }

    /// The number of arrivals and departures that were added, drops included. If no breach is
    /// shown, it is the number of placed sightings.
    pub fn count(&self) -> u32
        ensures { (taken : Taken) → Keeps taken self.now → result ≡ placing_count (entries self.now.certificate) }
    {
        self.count
    }

    /// The least breach of the intake's sightings that aren't placed. It reads the sightings once,
    /// and allocates no memory.
    pub fn unplaced(&self, intake: &Intake) -> Option<Breach>
        ensures { (before : Taken) → Keeps before self.now → IsLeast (ShowsAnUnplaced (taken intake.now) self.now.certificate) result }
    {
        unplaced_breach(intake, &self.certificate, &self.places)
    }

    /// Whether the certificate with the extension is one: the events' lanes exist, no two lanes are
    /// of one client at one listen address, and the limits are kept. It takes n log n time in the
    /// extension.
    pub fn fits(&self, extension: &Extension) -> Result<bool, AllocError>
        ensures { (taken : Taken) → Keeps taken self.now → IfOk result (λ fits. IsTrue fits ↔ Fits self.now.certificate extension.now) }
    {
        if !self.has_room(extension) {
            return Ok(false);
        }
        are_apart(self.alloc, &self.pairs, extension.lanes.as_slice())
    }

    /// Whether the limits are kept, and the events' lanes exist.
    fn has_room(&self, extension: &Extension) -> bool
        ensures { (taken : Taken) → Keeps taken self.now → IsTrue result ↔ HasRoom self.now.certificate extension.now }
    {
        let lanes = self.certificate.lanes.len();
        let events = self.events.saturating_add(extension.events.len());
        extension.lanes.len() <= MAX_LANES - lanes
            && events.saturating_add(extension.drops.len()) <= MAX_EVENTS
            && are_of_lanes(extension.events.as_slice(), lanes + extension.lanes.len())
    }

    /// Adds an extension, and returns the least breach of everything that was added so far, except
    /// those of sightings that aren't placed. The intake is that of the previous call, and may have
    /// grown.
    ///
    /// While no breach is shown, it takes time in proportion to the extension and the new
    /// sightings. If memory runs out, what was added is lost.
    pub fn add(
        &mut self,
        intake: &Intake,
        extension: &Extension,
    ) -> Result<Result<(), Breach>, AllocError>
        requires { Fits self.old.certificate extension.now }
        ensures extends { OnOk result (Extends self.old.certificate extension.now self.new.certificate) }
        // It passes exactly if no breach is shown,
        ensures passes { (before : Taken) → Keeps before self.old → Stays before (taken intake.now) →
            IfOk result (λ found. OnOk found (IsLeast (ShowsPlaced (taken intake.now) self.new.certificate) None)) }
        // and otherwise returns the least one.
        ensures breach { (before : Taken) → Keeps before self.old → Stays before (taken intake.now) →
            IfOk result (λ found. IfErr found (λ least. IsLeast (ShowsPlaced (taken intake.now) self.new.certificate) (Some least))) }
        ensures named { (before : Taken) → Keeps before self.old → Stays before (taken intake.now) →
            IfOk result (λ found. OnOk found (AllNamed (taken intake.now) self.new.certificate)) }
        ensures keeps { (before : Taken) → Keeps before self.old → Stays before (taken intake.now) → OnOk result (Keeps (taken intake.now) self.new) }
    {
        let mut growing = self.growing();
        growing.extend(self.alloc, intake, extension)?;
        add_pairs(&mut self.pairs, extension.lanes.as_slice())?;
        self.count = growing.count;
        let settled = settle(self.alloc, intake, growing)?;
        self.certificate = settled.certificate;
        self.places = settled.places;
        self.events = self
            .events
            .saturating_add(extension.events.len())
            .saturating_add(extension.drops.len());
        match settled.breach {
            Some(breach) => Ok(Err(breach)),
            None => Ok(Ok(())),
        }
    }

    /// Takes the certificate so far out, to be added to. `self` must not be used before it is set
    /// again.
    fn growing(&mut self) -> Growing
        ensures lanes { result.lanes.items ≡ self.old.certificate.lanes }
        ensures drops { result.drops ≡ self.old.certificate.drops }
        ensures sound { (taken : Taken) → Keeps taken self.old → IsSound taken result }
        ensures pairs { self.new.pairs ≡ self.old.pairs }
        ensures events { self.new.events ≡ self.old.events }
    {
        let certificate = replace(&mut self.certificate, no_certificate(self.alloc));
        let places = replace(&mut self.places, Places::Once(PlacedKeys::new(self.alloc)));
        let (keys, clean) = keys_of(self.alloc, places);
        Growing {
            lanes: certificate.lanes.into_vec(),
            drops: certificate.drops,
            keys,
            count: self.count,
            clean,
        }
    }
}
