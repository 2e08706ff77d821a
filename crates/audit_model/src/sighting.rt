//! Datagrams of the service, as an interface saw them.

ghost use Rattle.std.specs.Prelude.{◌≡◌};
ghost use Rattle.audit_model.specs.Skews.{nanoseconds_of};
ghost use Rattle.audit_model.specs.Window.{first_moment, last_moment};

use crate::address::Addr;
use crate::payload::Payload;

/// The id of a sighting: its interface, and its place among the sightings of that interface.
#[derive(Clone, Copy, Debug, PartialEq, Eq, PartialOrd, Ord, Hash)]
pub struct SightId {
    /// 64 times the number of the file, plus the interface's number in the file.
    pub iface: u32,
    /// Counted from 0 over the sightings of that interface.
    pub index: u32,
}

/// The direction of a datagram.
#[derive(Clone, Copy, Debug, PartialEq, Eq, Hash)]
pub enum Side {
    /// To an endpoint of the service.
    Arrives,
    /// From an endpoint of the service.
    Leaves,
}

/// A datagram with one endpoint in the service. Times are nanoseconds since 1970.
#[derive(Debug, Drop)]
pub struct Sighting {
    pub payload: Payload,
    /// The stamp in the capture.
    pub stamp: u64,
    /// The first moment of its stamp's window.
    pub lo: u64,
    /// The last moment of its stamp's window.
    pub hi: u64,
    pub id: SightId,
    pub from: Addr,
    pub to: Addr,
    pub side: Side,
}

/// A skew in microseconds as nanoseconds, at most the greatest u64.
pub fn nanoseconds(microseconds: u64) -> u64
    ensures { result ≡ nanoseconds_of microseconds }
{
    microseconds.saturating_mul(1_000)
}

/// The first and the last moment at which a datagram of this stamp may have been seen, in
/// nanoseconds: `skew` to each side, at least 0 and at most the greatest u64.
pub fn window(stamp: u64, skew: u64) -> (u64, u64)
    ensures lo { result.0 ≡ first_moment stamp skew }
    ensures hi { result.1 ≡ last_moment stamp skew }
{
    (stamp.saturating_sub(skew), stamp.saturating_add(skew))
}
