//! Checks the whole placement of a certificate.

ghost use Rattle.std.specs.Prelude.{◌≡◌, ◌<◌, [], IfOk, IfErr, IfNone, IfSome, OnOk, Some, None};
ghost use Rattle.audit_model.specs.Least.{IsLeast};
ghost use Rattle.audit_sightings.specs.Intake.{taken};
ghost use Rattle.audit_sightings.specs.ByInterface.{count_of};
ghost use Rattle.audit_placement.specs.Clean.{IsClean};
ghost use Rattle.audit_placement.specs.Entries.{lanes_entries, entries};
ghost use Rattle.audit_placement.specs.FirstPlace.{Notes};
ghost use Rattle.audit_placement.specs.Keys.{key_at};
ghost use Rattle.audit_placement.specs.Named.{AllNamed};
ghost use Rattle.audit_placement.specs.Shows.{Shows, ShowsByStamps, ShowsFrom, ShowsPlaced};

use crate::clean::{clean_keys, clean_keys_by};
use crate::cuts::least_cut;
use crate::events::{drops_breach, lane_breach};
use crate::first::FirstPlaces;
use crate::keys::PlacedKeys;
use crate::neighbours::neighbours_breach;
use crate::places::Places;
use crate::unplaced::unplaced_breach;
use audit_model::{Breach, CertLane, Certificate};
use audit_sightings::Intake;
use std::alloc::{AllocError, Global};
use std::thread::Threads;

/// If the lanes of a certificate have fewer events than this, one thread judges it, since to start
/// another takes longer.
const FEW: usize = 16_384;

/// Evidence that a certificate places each sighting once, in its window and in order. Only `placed`
/// and `placed_by` create one.
#[derive(Debug, Drop)]
pub struct Placement {
    datagrams: u32,
}

impl Placement {
    /// The number of sightings that are placed.
    pub fn datagrams(&self) -> u32
        ensures { result ≡ self.now.datagrams }
    {
        self.datagrams
    }
}

/// The least breach that the lanes' events show. If there is none, they name sightings that exist.
fn lanes_breach(
    intake: &Intake,
    first: &mut FirstPlaces,
    certificate: &Certificate,
) -> Result<Option<Breach>, AllocError>
    ensures shown { Notes certificate.now first.old [] → IfOk result (IsLeast (ShowsFrom (taken intake.now) [] (lanes_entries 0 certificate.now.lanes))) }
    ensures notes { Notes certificate.now first.old [] → OnOk result (Notes certificate.now first.new (lanes_entries 0 certificate.now.lanes)) }
    ensures named { IfOk result (λ least. IfNone least (AllNamed (taken intake.now) certificate.now)) }
{
    let mut least = None;
    'lanes: for (number, lane) in certificate.lanes.as_slice().iter().enumerate() {
        let found = lane_breach(intake, certificate, first, number as u32, lane)?;
        least = Breach::least(least, found);
    }
    Ok(least)
}

/// The least breach of what is placed, or none exactly if none is shown, and the first place of
/// each sighting. If there is none, the events name sightings that exist.
pub fn placed_breach(
    alloc: Global,
    intake: &Intake,
    certificate: &Certificate,
) -> Result<(Option<Breach>, FirstPlaces), AllocError>
    ensures shown { IfOk result (λ found. IsLeast (ShowsPlaced (taken intake.now) certificate.now) found.0) }
    ensures notes { IfOk result (λ found. Notes certificate.now found.1 (entries certificate.now)) }
    ensures named { IfOk result (λ found. IfNone found.0 (AllNamed (taken intake.now) certificate.now)) }
{
    let mut first = FirstPlaces::new(alloc, intake)?;
    let of_lanes = lanes_breach(intake, &mut first, certificate)?;
    let of_drops = drops_breach(intake, certificate, &mut first)?;
    let of_entries = Breach::least(of_lanes, of_drops);
    let of_neighbours = neighbours_breach(intake, certificate, &first);
    Ok((Breach::least(of_entries, of_neighbours), first))
}

/// The least breach of placement by the windows of the stamps, or none exactly if none is shown. If
/// there is none, the events name sightings that exist. `clean` has the keys at which sightings are
/// placed, if it is known that nothing placed shows a breach.
fn least_breach(
    alloc: Global,
    intake: &Intake,
    certificate: &Certificate,
    clean: Option<PlacedKeys>,
) -> Result<Option<Breach>, AllocError>
    requires { IfSome clean (λ keys. IsClean (taken intake.now) (key_at keys) (entries certificate.now)) }
    ensures shown { IfOk result (IsLeast (ShowsByStamps (taken intake.now) certificate.now)) }
    ensures named { IfOk result (λ least. IfNone least (AllNamed (taken intake.now) certificate.now)) }
{
    if let Some(keys) = clean {
        return Ok(unplaced_breach(intake, certificate, &Places::Once(keys)));
    }
    let (of_placed, first) = placed_breach(alloc, intake, certificate)?;
    let of_unplaced = unplaced_breach(intake, certificate, &Places::First(first));
    Ok(Breach::least(of_placed, of_unplaced))
}

/// The least breach of placement, also by the windows that the certificate's skews narrow. If there
/// is none, the events name sightings that exist.
fn least_with_cuts(
    alloc: Global,
    intake: &Intake,
    certificate: &Certificate,
    clean: Option<PlacedKeys>,
) -> Result<Option<Breach>, AllocError>
    requires { IfSome clean (λ keys. IsClean (taken intake.now) (key_at keys) (entries certificate.now)) }
    ensures shown { IfOk result (IsLeast (Shows (taken intake.now) certificate.now)) }
    ensures named { IfOk result (λ least. IfNone least (AllNamed (taken intake.now) certificate.now)) }
{
    let by_stamps = least_breach(alloc, intake, certificate, clean)?;
    let of_cuts = least_cut(intake, certificate);
    Ok(Breach::least(by_stamps, of_cuts))
}

/// The result of `placed`, by the clean keys if they are known.
fn found_by(
    alloc: Global,
    intake: &Intake,
    certificate: &Certificate,
    clean: Option<PlacedKeys>,
) -> Result<Result<Placement, Breach>, AllocError>
    requires { IfSome clean (λ keys. IsClean (taken intake.now) (key_at keys) (entries certificate.now)) }
    ensures passes { IfOk result (λ found. OnOk found (IsLeast (Shows (taken intake.now) certificate.now) None)) }
    ensures breach { IfOk result (λ found. IfErr found (λ least. IsLeast (Shows (taken intake.now) certificate.now) (Some least))) }
    ensures datagrams { IfOk result (λ found. IfOk found (λ placement. placement.datagrams ≡ count_of (taken intake.now).interfaces)) }
    ensures named { IfOk result (λ found. OnOk found (AllNamed (taken intake.now) certificate.now)) }
{
    match least_with_cuts(alloc, intake, certificate, clean)? {
        Some(breach) => Ok(Err(breach)),
        None => {
            let (_, datagrams) = intake.counts();
            Ok(Ok(Placement { datagrams }))
        }
    }
}

/// Whether the certificate places each sighting of the intake once, in its window and in order, or
/// else the least breach. It reads the events once and the sightings once, and takes 16 bytes a
/// sighting. If the certificate has skews, it reads the events once more. If a rule is broken, it
/// reads all of them again, and the neighbours on each interface.
pub fn placed(
    alloc: Global,
    intake: &Intake,
    certificate: &Certificate,
) -> Result<Result<Placement, Breach>, AllocError>
    // It passes exactly if no breach is shown,
    ensures passes { IfOk result (λ found. OnOk found (IsLeast (Shows (taken intake.now) certificate.now) None)) }
    // and otherwise reports the least one.
    ensures breach { IfOk result (λ found. IfErr found (λ least. IsLeast (Shows (taken intake.now) certificate.now) (Some least))) }
    ensures datagrams { IfOk result (λ found. IfOk found (λ placement. placement.datagrams ≡ count_of (taken intake.now).interfaces)) }
    ensures named { IfOk result (λ found. OnOk found (AllNamed (taken intake.now) certificate.now)) }
{
    let clean = clean_keys(alloc, intake, certificate)?;
    found_by(alloc, intake, certificate, clean)
}

/// Whether the lanes have enough events for threads to save time.
fn are_many(lanes: &[CertLane]) -> bool {
    let mut events: usize = 0;
    'lanes: for lane in lanes {
        events = events.saturating_add(lane.events.len());
        if events >= FEW {
            return true;
        }
    }
    false
}

/// The same as `placed`, by at most `workers` threads: they check each event of the lanes by
/// itself, and this thread alone does the rest. It takes up to 129 bytes more for each lane and for
/// each 4,096 events of a lane, while the threads run. With one worker, or with few events, it is
/// `placed`.
pub fn placed_by<R: Threads + Sync>(
    rt: &R,
    alloc: Global,
    intake: &Intake,
    certificate: &Certificate,
    workers: u32,
) -> Result<Result<Placement, Breach>, AllocError>
    requires { 0 < workers }
    // It passes exactly if no breach is shown,
    ensures passes { IfOk result (λ found. OnOk found (IsLeast (Shows (taken intake.now) certificate.now) None)) }
    // and otherwise reports the least one.
    ensures breach { IfOk result (λ found. IfErr found (λ least. IsLeast (Shows (taken intake.now) certificate.now) (Some least))) }
    ensures datagrams { IfOk result (λ found. IfOk found (λ placement. placement.datagrams ≡ count_of (taken intake.now).interfaces)) }
    ensures named { IfOk result (λ found. OnOk found (AllNamed (taken intake.now) certificate.now)) }
{
    if workers == 1 || !are_many(certificate.lanes.as_slice()) {
        return placed(alloc, intake, certificate);
    }
    let clean = clean_keys_by(rt, alloc, intake, certificate, workers)?;
    found_by(alloc, intake, certificate, clean)
}
