//! An index of the sightings.

ghost use Rattle.std.specs.Prelude.{◌≤◌, length, IfOk};
ghost use Rattle.audit_sightings.specs.Intake.{taken, interface_at};
ghost use Rattle.audit_faults.specs.Index.{IsIndex};
ghost use Rattle.audit_faults.specs.Reach.{AreExtents, OutsideIsOut};

use crate::leased::Leases;
use crate::reach::{Extents, Span, extents_of, span_of};
use crate::repeats::Arrivals;
use audit_model::Sighting;
use audit_sightings::Intake;
use std::alloc::{AllocError, Global};

/// An index of the sightings. Without its parts, all sightings are searched.
#[derive(Clone, Copy)]
pub struct Index<'a> {
    /// The moments of each interface, by its number.
    pub extents: &'a [Extents],
    /// The requests for leases and their success responses.
    pub leases: Option<Leases<'a>>,
    /// All arrivals, by what they request.
    pub arrivals: Option<Arrivals<'a>>,
}

/// The moments of each interface. It takes memory for two numbers a sighting, and linear time.
pub fn extents_by_interface(alloc: Global, intake: &Intake) -> Result<Vec<Extents>, AllocError>
    ensures { IfOk result (λ extents. AreExtents (taken intake.now) extents.items) }
{
    let mut extents = Vec::new(alloc);
    'interfaces: for iface in 0..intake.interfaces() {
        extents.push(extents_of(alloc, intake.interface(iface))?)?;
    }
    Ok(extents)
}

/// The span of the interface outside of which no sighting is in reach of the departure. It takes
/// logarithmic time.
pub fn span_in(intake: &Intake, index: &Index<'_>, iface: u32, departure: &Sighting) -> Span
    requires { IsIndex (taken intake.now) index.now }
    ensures past { result.past ≤ length (interface_at (taken intake.now) iface) }
    ensures out { OutsideIsOut (taken intake.now).policy.hold departure.now (interface_at (taken intake.now) iface) result.first result.past }
{
    match index.extents.get(iface as usize) {
        Some(extents) => span_of(extents, intake.policy().hold, departure),
        None => Span {
            first: 0,
            past: intake.interface(iface).len(),
        },
    }
}
