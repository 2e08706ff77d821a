//! The policy: the endpoints of the service, and the tolerances.

use crate::address::Addr;
use crate::listed::Listed;

/// UDP ports of one IPv4 address, from `low` to `high` inclusive.
#[derive(Clone, Copy, Debug, PartialEq, Eq)]
pub struct PortRange {
    pub ip: u32,
    pub low: u16,
    pub high: u16,
}

impl PortRange {
    ghost use Rattle.std.specs.Prelude.{◌≡◌, ◌↔◌, IsTrue};
    ghost use Rattle.audit_model.specs.PortRange.{IsIn, Meet, is_in, meet};

    /// Whether the address is one of the range.
    pub fn contains(&self, addr: Addr) -> bool
        ensures means { IsTrue result ↔ IsIn addr self.now }
        ensures value { result ≡ is_in addr self.now }
    {
        self.ip == addr.ip && self.low <= addr.port && addr.port <= self.high
    }

    /// Whether some address is in both ranges, neither of which is empty.
    pub fn meets(&self, other: &PortRange) -> bool
        ensures means { IsTrue result ↔ Meet self.now other.now }
        ensures value { result ≡ meet self.now other.now }
    {
        self.ip == other.ip && self.low <= other.high && other.low <= self.high
    }
}

/// One address as a range.
impl From<Addr> for PortRange {
    ghost use Rattle.std.specs.Prelude.{◌≡◌};
    ghost use Rattle.audit_model.specs.PortRange.{lone};

    ghost from_gives = { λ addr range. range ≡ lone addr };

    fn from(addr: Addr) -> PortRange {
        PortRange {
            ip: addr.ip,
            low: addr.port,
            high: addr.port,
        }
    }
}

/// How far a datagram's moment on one interface may differ from its stamp.
#[derive(Clone, Copy, Debug, PartialEq, Eq)]
pub struct InterfaceSkew {
    /// The interface, as in a `SightId`.
    pub iface: u32,
    /// In nanoseconds.
    pub skew: u64,
}

/// The policy: what the auditor knows of the server. Lengths of time are nanoseconds.
#[derive(Debug, Drop)]
pub struct Policy {
    /// The listen addresses, to which clients send their requests.
    pub listen: Listed<Addr>,
    /// The relay ranges, from which the server relays.
    pub relay: Listed<PortRange>,
    /// How far a datagram's moment may differ from its stamp, on an interface that has no skew of
    /// its own.
    pub skew: u64,
    /// The skews that interfaces have of their own. The first of an interface counts.
    pub skews: Listed<InterfaceSkew>,
    /// How long after its end a lease may be used.
    pub grace: u64,
    /// The longest time from an arrival to its act, and from an arrival to its departure.
    pub hold: u64,
}

impl Policy {
    ghost use Rattle.std.specs.Prelude.{◌≡◌, ◌==◌, ◌↔◌, IsTrue, Any};
    ghost use Rattle.std.specs.List.{list_any};
    ghost use Rattle.audit_model.specs.Policy.{Listens, Relays, IsOfService, listens, relays, is_of_service};
    ghost use Rattle.audit_model.specs.Skews.{skew_for};

    /// Whether clients send their requests to this address. It searches at most 64 listen
    /// addresses.
    pub fn listens(&self, addr: Addr) -> bool
        ensures means { IsTrue result ↔ Listens self.now addr }
        ensures value { result ≡ listens self.now addr }
    {
        self.listen.as_slice().iter().any(|listen| *listen == addr)
    }

    /// Whether the address is in a relay range. It searches at most 64 ranges.
    pub fn relays(&self, addr: Addr) -> bool
        ensures means { IsTrue result ↔ Relays self.now addr }
        ensures value { result ≡ relays self.now addr }
    {
        self.relay
            .as_slice()
            .iter()
            .any(|range| range.contains(addr))
    }

    /// Whether some endpoint of the service has this IP.
    pub fn service_ip(&self, ip: u32) -> bool
        ensures means { IsTrue result ↔ IsOfService self.now ip }
        ensures value { result ≡ is_of_service self.now ip }
    {
        self.listens_at_ip(ip) || self.relays_at_ip(ip)
    }

    /// How far a datagram's moment on this interface may differ from its stamp, in nanoseconds. It
    /// searches the skews that interfaces have of their own, at most 1,024 of them in a policy that
    /// was read.
    pub fn skew_for(&self, iface: u32) -> u64
        ensures { result ≡ skew_for self.now iface }
    {
        match self.skews.as_slice().iter().find(|own| own.iface == iface) {
            Some(own) => own.skew,
            None => self.skew,
        }
    }

    fn listens_at_ip(&self, ip: u32) -> bool
        ensures means { IsTrue result ↔ Any (λ listen. listen.ip ≡ ip) self.now.listen }
        ensures value { result ≡ list_any (λ listen. listen.ip == ip) self.now.listen }
    {
        self.listen.as_slice().iter().any(|listen| listen.ip == ip)
    }

    fn relays_at_ip(&self, ip: u32) -> bool
        ensures means { IsTrue result ↔ Any (λ range. range.ip ≡ ip) self.now.relay }
        ensures value { result ≡ list_any (λ range. range.ip == ip) self.now.relay }
    {
        self.relay.as_slice().iter().any(|range| range.ip == ip)
    }
}
