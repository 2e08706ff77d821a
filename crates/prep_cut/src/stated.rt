//! The operator's statements, and which packets each reason may exclude under them.

ghost use Rattle.std.specs.Prelude.{◌≡◌};
ghost use Rattle.prep_cut.specs.Guard.{is_early, is_late, is_of_pair, far_end, is_apart, is_at, is_departure, is_due, is_free, own_end, is_in_time, is_behind, is_stated, is_named, is_heard, may_leave_packet, same};

use crate::allocations::Allocations;
use crate::datagram::Datagram;
use crate::reason::Reason;
use crate::release::Release;
use audit_model::{Addr, Pair, Side};

/// The operator's statements about the captures. Moments are nanoseconds since 1970.
#[derive(Clone, Copy, Debug, PartialEq, Eq)]
pub struct Stated {
    /// Packets before this moment are excluded.
    pub since: Option<u64>,
    /// Departures after this moment are excluded.
    pub until: Option<u64>,
    /// The server started with the captures, or at `since`.
    pub is_from_start: bool,
    /// No client uses TCP, TLS, DTLS or IPv6.
    pub has_no_tcp: bool,
    /// Data between addresses of the service stays in.
    pub keeps_inner: bool,
    /// The longest lifetime of an allocation from before, in seconds.
    pub lifetime: u64,
    /// For this number of milliseconds after a client's Refresh success response with LIFETIME 0,
    /// data relayed for it is excluded: 0 to 60,000.
    pub released_ms: u64,
}

/// The nanoseconds of a millisecond.
const MILLISECOND: u64 = 1_000_000;

impl Stated {
    /// Whether the reason may exclude a packet of this stamp, which contains this datagram of the
    /// service or none. The operator's statements must allow the reason, and the packet must be of
    /// the client or the address that the reason names. Nothing is excluded of a client that sends
    /// nothing in all of the captures. An Allocate success response whose request is among the
    /// allocations, and an Allocate request whose success response is, is excluded only by its
    /// moment. Data relayed after a deletion is excluded only if the deletion is among the
    /// allocations and a departure is within the stated time.
    pub fn may_leave(
        &self,
        allocations: &Allocations,
        reason: &Reason,
        stamp: u64,
        datagram: Option<Datagram>,
    ) -> bool
        ensures { result ≡ may_leave_packet self.now allocations.now reason.now stamp datagram }
    {
        match reason {
            Reason::BeforeSince => self.is_early(stamp),
            Reason::AfterUntil => self.is_late(stamp),
            _ => match datagram {
                None => false,
                Some(datagram) => {
                    self.allows(reason)
                        && self.is_due(allocations, reason, &datagram)
                        && is_named(reason, &datagram)
                        && is_heard(allocations, reason)
                        && !allocations.shows(&datagram)
                }
            },
        }
    }

    /// Whether a moment is before `since`.
    pub fn is_early(&self, stamp: u64) -> bool
        ensures { result ≡ is_early self.now.since stamp }
    {
        match self.since {
            None => false,
            Some(since) => stamp < since,
        }
    }

    /// Whether a moment is after `until`.
    pub fn is_late(&self, stamp: u64) -> bool
        ensures { result ≡ is_late self.now.until stamp }
    {
        match self.until {
            None => false,
            Some(until) => until < stamp,
        }
    }

    /// Whether the operator's statements allow the reason.
    fn allows(&self, reason: &Reason) -> bool
        ensures { result ≡ is_stated self.now reason.now }
    {
        match reason {
            Reason::BeforeSince | Reason::AfterUntil => true,
            Reason::Client(_) | Reason::Answer(_) | Reason::AddressOf { .. } => !self.is_from_start,
            Reason::Edge => !self.is_from_start,
            Reason::AddressTold { .. } | Reason::Address { .. } => !self.has_no_tcp,
            Reason::Dtls(_) => !self.has_no_tcp,
            Reason::Released { .. } => self.released_ms > 0,
            Reason::Inner { .. } | Reason::Inside { .. } => !self.keeps_inner,
        }
    }

    /// Whether the captures show no lease that contradicts the reason. For released data they must
    /// also show the deletion, the address must be the client's, and a departure must be in time.
    fn is_due(&self, allocations: &Allocations, reason: &Reason, datagram: &Datagram) -> bool
        ensures { result ≡ is_due self.now allocations.now reason.now datagram.now }
    {
        match reason {
            Reason::Released {
                pair,
                relayed,
                moment,
            } => {
                let release = Release {
                    client: pair.client,
                    listen: pair.listen,
                    moment: *moment,
                };
                allocations.has_release(&release)
                    && self.is_in_time(*moment, datagram)
                    && allocations.is_its(pair, *relayed, *moment)
                    && is_apart(allocations, datagram)
                    && (is_free(allocations, datagram) || datagram.is_data)
            }
            Reason::Client(_)
            | Reason::Answer(_)
            | Reason::Dtls(_)
            | Reason::AddressOf { .. }
            | Reason::AddressTold { .. }
            | Reason::Address { .. }
            | Reason::Edge => is_apart(allocations, datagram) && is_free(allocations, datagram),
            Reason::Inner { .. } => is_apart(allocations, datagram) && datagram.is_data,
            Reason::BeforeSince | Reason::AfterUntil | Reason::Inside { .. } => true,
        }
    }

    fn is_in_time(&self, moment: u64, datagram: &Datagram) -> bool
        ensures { result ≡ is_in_time datagram.now.side self.now moment datagram.now.stamp }
    {
        match datagram.side {
            Side::Arrives => true,
            Side::Leaves => self.is_behind(moment, datagram.stamp),
        }
    }

    /// Whether a moment is after a deletion, and within the stated time.
    pub fn is_behind(&self, release: u64, stamp: u64) -> bool
        ensures { result ≡ is_behind self.now release stamp }
    {
        let longest = self.released_ms.saturating_mul(MILLISECOND);
        release < stamp && stamp - release <= longest
    }
}

/// Whether a datagram is of the client or the address that the reason names.
fn is_named(reason: &Reason, datagram: &Datagram) -> bool
    ensures { result ≡ is_named reason.now datagram.now }
{
    match reason {
        Reason::BeforeSince | Reason::AfterUntil => true,
        Reason::Client(pair) | Reason::Answer(pair) | Reason::Inner { pair, .. } => {
            is_of_pair(datagram, pair)
        }
        Reason::AddressOf { relayed, .. }
        | Reason::AddressTold { relayed, .. }
        | Reason::Address { relayed, .. } => is_at(datagram, *relayed),
        Reason::Released { pair, relayed, .. } => {
            is_at(datagram, *relayed) || (datagram.is_data && is_of_pair(datagram, pair))
        }
        Reason::Dtls(pair) => datagram.is_dtls && is_of_pair(datagram, pair),
        Reason::Inside { from, to } => {
            datagram.is_inside && datagram.from == *from && datagram.to == *to
        }
        Reason::Edge => is_departure(datagram),
    }
}

/// Whether the client that the reason names, if any, sends something in the captures.
fn is_heard(allocations: &Allocations, reason: &Reason) -> bool
    ensures { result ≡ is_heard allocations.now reason.now }
{
    match reason {
        Reason::Client(pair)
        | Reason::Answer(pair)
        | Reason::Released { pair, .. }
        | Reason::Dtls(pair)
        | Reason::Inner { pair, .. } => allocations.has_sender(pair),
        Reason::BeforeSince
        | Reason::AfterUntil
        | Reason::Edge
        | Reason::AddressOf { .. }
        | Reason::AddressTold { .. }
        | Reason::Address { .. }
        | Reason::Inside { .. } => true,
    }
}

/// Whether no client has a lease of the address at which a datagram is.
fn is_apart(allocations: &Allocations, datagram: &Datagram) -> bool
    ensures { result ≡ is_apart allocations.now datagram.now }
{
    !allocations.is_leased(datagram.own_end(), datagram.stamp)
}

/// Whether a datagram isn't between the service and a client that was granted an allocation before.
fn is_free(allocations: &Allocations, datagram: &Datagram) -> bool
    ensures { result ≡ is_free allocations.now datagram.now }
{
    !allocations.is_tenant(datagram.far_end(), datagram.own_end(), datagram.stamp)
}

impl Datagram {
    /// The end in the service.
    pub(crate) fn own_end(&self) -> Addr
        ensures { result ≡ own_end self.now }
    {
        match self.side {
            Side::Arrives => self.to,
            Side::Leaves => self.from,
        }
    }

    /// The other end.
    pub(crate) fn far_end(&self) -> Addr
        ensures { result ≡ far_end self.now }
    {
        match self.side {
            Side::Arrives => self.from,
            Side::Leaves => self.to,
        }
    }
}

/// Whether a datagram leaves the service.
fn is_departure(datagram: &Datagram) -> bool
    ensures { result ≡ is_departure datagram.now }
{
    match datagram.side {
        Side::Arrives => false,
        Side::Leaves => !datagram.is_inside,
    }
}

/// Whether a datagram is between a client and its listen address.
fn is_of_pair(datagram: &Datagram, pair: &Pair) -> bool
    ensures { result ≡ is_of_pair datagram.now pair.now }
{
    match datagram.side {
        Side::Arrives => datagram.from == pair.client && datagram.to == pair.listen,
        Side::Leaves => datagram.from == pair.listen && datagram.to == pair.client,
    }
}

/// Whether a datagram arrives at an address or leaves it.
fn is_at(datagram: &Datagram, relayed: Addr) -> bool
    ensures { result ≡ is_at datagram.now relayed }
{
    match datagram.side {
        Side::Arrives => datagram.to == relayed,
        Side::Leaves => datagram.from == relayed,
    }
}
