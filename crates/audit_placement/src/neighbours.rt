//! The breaches of placement that neighbours on an interface show.

ghost use Rattle.std.specs.Prelude.{◌≡◌, ℕ, List, length};
ghost use Rattle.audit_model.specs.Least.{IsLeast};
ghost use Rattle.audit_sightings.specs.Intake.{taken};
ghost use Rattle.audit_sightings.specs.ByInterface.{IsNumbered};
ghost use Rattle.audit_placement.specs.declared.entry.Entry.{Entry};
ghost use Rattle.audit_placement.specs.FirstPlace.{Notes};
ghost use Rattle.audit_placement.specs.Neighbours.{order_breach};
ghost use Rattle.audit_placement.specs.Shows.{ShowsInterfaceOrder, ShowsOutOfOrder};

use crate::first::FirstPlaces;
use audit_model::{At, Breach, Certificate, Rule, Sighting};
use audit_sightings::Intake;

/// The breach that a sighting shows, if it isn't placed after its neighbour on the interface.
fn sighting_breach(sighting: &Sighting, place: Option<At>, before: Option<At>) -> Option<Breach>
    ensures { result ≡ order_breach before place sighting.now }
{
    let before = before?;
    let at = place?;
    if at.key > before.key {
        return None;
    }
    Some(Breach {
        at,
        sight: sighting.id,
        rule: Rule::InterfaceOrder,
        phase: 1,
    })
}

/// The least breach that the neighbours on one interface show.
fn interface_breach(
    certificate: &Certificate,
    sightings: &[Sighting],
    first: &FirstPlaces,
) -> Option<Breach>
    ensures { (iface : ℕ) (entries : List Entry) → IsNumbered iface sightings.now → Notes certificate.now first.now entries →
        IsLeast (ShowsInterfaceOrder entries iface (length sightings.now)) result }
{
    let mut least = None;
    let mut before = None;
    'sightings: for sighting in sightings {
        let place = first.at(certificate, sighting.id);
        least = Breach::least(least, sighting_breach(sighting, place, before));
        before = place;
    }
    least
}

/// The least breach that neighbours show: a sighting that isn't placed after the one before it.
pub fn neighbours_breach(
    intake: &Intake,
    certificate: &Certificate,
    first: &FirstPlaces,
) -> Option<Breach>
    ensures { (entries : List Entry) → Notes certificate.now first.now entries → IsLeast (ShowsOutOfOrder (taken intake.now) entries) result }
{
    let mut least = None;
    'interfaces: for iface in 0..intake.interfaces() {
        let found = interface_breach(certificate, intake.interface(iface), first);
        least = Breach::least(least, found);
    }
    least
}
