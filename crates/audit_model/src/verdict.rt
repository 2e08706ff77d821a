//! The result of an audit.

use crate::address::Addr;
use crate::event::{At, Key};
use crate::rule::Rule;
use crate::sighting::SightId;
use std::cmp::Ordering;

/// A rule broken at an event.
#[derive(Clone, Copy, Debug, PartialEq, Eq)]
pub struct Breach {
    pub at: At,
    /// The sighting that shows it.
    pub sight: SightId,
    pub rule: Rule,
    /// 1 for placement, 2 for the lanes, 3 for the tenancies.
    pub phase: u8,
}

impl Breach {
    ghost use Rattle.std.specs.Prelude.{◌≡◌, None, Some};
    ghost use Rattle.audit_model.specs.Breach.{breach_cmp, lesser};

    /// The order in which breaches of one phase are reported: by moment, tie, lane, rule, place and
    /// sighting.
    pub fn report_order(&self, other: &Breach) -> Ordering
        ensures { result ≡ breach_cmp self.now other.now }
    {
        self.at
            .key
            .cmp(&other.at.key)
            .then(self.at.lane.cmp(&other.at.lane))
            .then(self.rule.rank().cmp(&other.rule.rank()))
            .then(self.at.place.cmp(&other.at.place))
            .then(self.sight.cmp(&other.sight))
    }

    /// The one of two breaches that is reported.
    pub fn least(first: Option<Breach>, second: Option<Breach>) -> Option<Breach>
        ensures { result ≡ lesser first second }
    {
        match (first, second) {
            (Some(one), Some(other)) => match other.report_order(&one) {
                Ordering::Less => Some(other),
                _ => Some(one),
            },
            (Some(one), None) => Some(one),
            (None, other) => other,
        }
    }
}

/// The result of an audit.
#[derive(Clone, Copy, Debug, PartialEq, Eq)]
pub enum Verdict {
    /// Some order of all captured datagrams of the service is a run of the server.
    Conforming {
        /// The number of sightings.
        datagrams: u32,
        /// The number of the certificate's lanes.
        lanes: u32,
    },
    /// The certificate doesn't show it; the first breach.
    NotShown(Breach),
}

/// The time during which a client has a relayed address.
#[derive(Clone, Copy, Debug, PartialEq, Eq)]
pub struct Tenancy {
    /// The act that made the allocation.
    pub born: At,
    /// The act that deleted or replaced it, if any.
    pub stopped: Option<Key>,
    /// The allocation's final end plus the policy's grace, in nanoseconds since 1970.
    pub last: u64,
    pub relayed: Addr,
    /// The arrival of the act that made it.
    pub sight: SightId,
}
