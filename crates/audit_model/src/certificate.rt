//! Certificates: an order of all captured datagrams of the service, lane by lane.

ghost use Rattle.std.specs.Prelude.{◌≡◌, ◌≤◌, ◌+◌, length, true};
ghost use Rattle.std.specs.List.{IsDistinct};
ghost use Rattle.std.proofs.Props.{props};
ghost use Rattle.audit_model.specs.EventCount.{event_count};
ghost use Rattle.audit_model.specs.Lanes.{same_lane};
ghost use Rattle.audit_model.specs.Skews.{rise, skew_of};
ghost use Rattle.audit_model.specs.declared.certificate.TheConstants.{MAX_LANES, MAX_EVENTS, MAX_SKEWS};

use crate::address::Addr;
use crate::event::{Event, Key};
use crate::listed::Listed;
use crate::sighting::SightId;

/// The most lanes of a certificate.
pub const MAX_LANES: usize = 65_536;

/// The most interfaces that a certificate has skews of.
pub const MAX_SKEWS: usize = 1_024;

/// The most events and drops together.
pub const MAX_EVENTS: usize = 50_331_648;

/// The events of one client at one listen address, in their order.
#[derive(Debug, Drop)]
pub struct CertLane {
    pub events: Listed<Event>,
    pub client: Addr,
    pub listen: Addr,
}

/// An arrival that the server never acted on.
#[derive(Clone, Copy, Debug, PartialEq, Eq)]
pub struct CertDrop {
    pub sight: SightId,
    pub key: Key,
}

/// How far the moments on one interface may differ from their stamps.
#[derive(Clone, Copy, Debug, PartialEq, Eq)]
pub struct CertSkew {
    /// The interface, as in a `SightId`. There need not be one of that number.
    pub iface: u32,
    pub microseconds: u64,
}

/// A certificate: lanes, and the arrivals that were dropped, which count as the lane after the
/// last.
#[derive(Debug, Drop)]
pub struct Certificate {
    pub lanes: Listed<CertLane>,
    pub drops: Listed<CertDrop>,
    /// The interfaces on which moments are nearer to their stamps than the policy requires, in
    /// rising order. No skew widens a window.
    pub skews: Listed<CertSkew>,
    /// No two lanes have one client at one listen address.
    pub ghost distinct: { IsDistinct same_lane lanes } by { Prim.hlevel props },
    pub ghost few_lanes: { length lanes ≤ MAX_LANES },
    pub ghost few_events: { event_count lanes + length drops ≤ MAX_EVENTS },
    /// The interfaces rise strictly.
    pub ghost rising: { rise skews ≡ true },
    pub ghost few_skews: { length skews ≤ MAX_SKEWS },
}

impl Certificate {
    /// The certificate's skew of the interface, in microseconds. It takes log n time in the skews.
    pub fn skew_of(&self, iface: u32) -> Option<u64>
        ensures { result ≡ skew_of self.now.skews iface }
    {
        skew_among(self.skews.as_slice(), iface)
    }
}

/// The skew of the interface among skews whose interfaces rise.
fn skew_among(skews: &[CertSkew], iface: u32) -> Option<u64>
    requires { rise skews.now ≡ true }
    ensures { result ≡ skew_of skews.now iface }
{
    match skews.binary_search_by_key(&iface, |skew| skew.iface) {
        Ok(at) => Some(skews[at].microseconds),
        Err(_) => None,
    }
}
