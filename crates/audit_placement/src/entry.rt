//! The entries of a certificate: the events of its lanes, and the drops.

ghost use Rattle.std.specs.Prelude.{◌≡◌};
ghost use Rattle.audit_placement.specs.Entries.{at_of};

use audit_model::{At, Certificate, Event, Key, Pair};
use std::mem::size_of;

/// The end of a lane, or of the drops, after which an event follows.
#[derive(Clone, Copy, Debug)]
pub struct LaneEnd {
    /// The lane's pair; none for the drops.
    pub pair: Option<Pair>,
    /// The key of the last event.
    pub last: Option<Key>,
}

/// An event of a lane, or a dropped arrival.
#[derive(Clone, Copy, Debug)]
pub struct Entry {
    pub at: At,
    /// For a dropped arrival, `In`.
    pub event: Event,
    /// The lane's pair; none for a dropped arrival.
    pub pair: Option<Pair>,
    /// The key of the entry before it, in its lane or in the drops.
    pub last: Option<Key>,
}

/// Which event of which lane of a certificate, or which of its drops, in 12 bytes.
#[derive(Clone, Copy, Debug)]
pub enum Spot {
    Nowhere,
    InLane { lane: u32, place: u32 },
    Dropped { place: u32 },
}

const _: () = prove!(size_of::<Spot>() == 12);

/// The place and the key of the certificate's event or drop at the spot.
pub fn at_spot(certificate: &Certificate, spot: Spot) -> Option<At>
    ensures { result ≡ at_of certificate.now spot }
{
    match spot {
        Spot::Nowhere => None,
        Spot::InLane { lane, place } => {
            let in_lane = certificate.lanes.as_slice().get(lane as usize)?;
            let event = in_lane.events.as_slice().get(place as usize)?;
            Some(At {
                key: event.key(),
                lane,
                place,
            })
        }
        Spot::Dropped { place } => {
            let dropped = certificate.drops.as_slice().get(place as usize)?;
            Some(At {
                key: dropped.key,
                lane: certificate.lanes.len() as u32,
                place,
            })
        }
    }
}
