//! The relayed addresses that Allocate success responses grant.

ghost use Rattle.std.specs.Prelude.{◌≡◌, ◌≤◌, length, take, drop};
ghost use Rattle.std.specs.List.{prefix_len};
ghost use Rattle.prep_look.specs.PolicyLines.{is_of_ip};

use crate::survey::Answers;
use audit_model::Addr;
use std::alloc::{AllocError, Global};
use std::collections::{BTreeMap, BTreeSet};

/// A relayed address that was granted over UDP and IPv4.
#[derive(Clone, Copy, Debug)]
pub(crate) struct GrantedAddress {
    pub(crate) relayed: Addr,
    /// Whether a datagram leaves it or arrives there.
    pub(crate) is_on_wire: bool,
}

/// An address that was granted and isn't on the wire, and an address with responses that has ports
/// which were granted for the first one.
#[derive(Clone, Copy, Debug)]
pub struct Alias {
    pub public: u32,
    pub private: u32,
    /// The number of such ports.
    pub ports: u64,
    /// How many ports were granted.
    pub of: u64,
}

impl Alias {
    /// Whether it is likely: at least half of the granted ports, or more than two, are there.
    pub(crate) fn is_likely(&self) -> bool {
        self.ports > 2 || self.ports.saturating_mul(2) >= self.of
    }
}

/// At most this number of addresses with responses is checked for ports that were granted for
/// another address, so that the cost is bounded.
const MOST_CANDIDATES: usize = 8;

/// The addresses that were granted, in order.
pub(crate) fn granted_on_wire(
    alloc: Global,
    granted: &BTreeSet<Addr>,
    wire: &BTreeSet<Addr>,
) -> Result<Vec<GrantedAddress>, AllocError> {
    let mut all = Vec::new(alloc);
    for relayed in granted.iter() {
        all.push(GrantedAddress {
            relayed: *relayed,
            is_on_wire: wire.contains(relayed),
        })?;
    }
    Ok(all)
}

/// For each address that was granted and isn't on the wire, the address with responses that has
/// most of its ports.
pub(crate) fn aliases_of(
    alloc: Global,
    granted: &[GrantedAddress],
    answers: &BTreeMap<Addr, Answers>,
    wire: &BTreeSet<Addr>,
) -> Result<Vec<Alias>, AllocError> {
    let candidates = ips_of(alloc, answers)?;
    let on_wire = ips_on_wire(alloc, wire)?;
    let mut aliases = Vec::new(alloc);
    let mut rest = granted;
    for _ in 0..granted.len() {
        let Some((first, _)) = rest.split_first() else {
            return Ok(aliases);
        };
        let (of_ip, remaining) = split_ip(rest, first.relayed.ip);
        if on_wire.binary_search(&first.relayed.ip).is_err() {
            if let Some(alias) = alias_of(of_ip, &candidates, wire) {
                aliases.push(alias)?;
            }
        }
        rest = remaining;
    }
    Ok(aliases)
}

/// The first addresses with responses, without ports, each once.
fn ips_of(alloc: Global, answers: &BTreeMap<Addr, Answers>) -> Result<Vec<u32>, AllocError> {
    let mut ips = Vec::new(alloc);
    for addr in answers.keys() {
        if ips.len() < MOST_CANDIDATES && ips.last().copied() != Some(addr.ip) {
            ips.push(addr.ip)?;
        }
    }
    Ok(ips)
}

/// The addresses on the wire, without ports, each once and in order.
fn ips_on_wire(alloc: Global, wire: &BTreeSet<Addr>) -> Result<Vec<u32>, AllocError> {
    let mut ips = Vec::new(alloc);
    for addr in wire.iter() {
        if ips.last().copied() != Some(addr.ip) {
            ips.push(addr.ip)?;
        }
    }
    Ok(ips)
}

/// How many addresses at the front are of one IP address.
fn length_at(granted: &[GrantedAddress], ip: u32) -> usize
    ensures count { result ≡ prefix_len (is_of_ip ip) granted.now }
    ensures within { result ≤ length granted.now }
{
    for (at, one) in granted.iter().enumerate() {
        if one.relayed.ip != ip {
            return at;
        }
    }
    granted.len()
}

/// The addresses of one IP address at the front, and the others. The cost is the number of those at
/// the front.
pub(crate) fn split_ip(
    granted: &[GrantedAddress],
    ip: u32,
) -> (&[GrantedAddress], &[GrantedAddress])
    ensures front { result.0.now ≡ take (prefix_len (is_of_ip ip) granted.now) granted.now }
    ensures others { result.1.now ≡ drop (prefix_len (is_of_ip ip) granted.now) granted.now }
{
    granted.split_at(length_at(granted, ip))
}

/// The candidate that has most of the ports.
fn alias_of(
    granted: &[GrantedAddress],
    candidates: &[u32],
    wire: &BTreeSet<Addr>,
) -> Option<Alias> {
    let mut best: Option<Alias> = None;
    for private in candidates {
        let mut ports = 0u64;
        let mut public = 0;
        for one in granted {
            public = one.relayed.ip;
            let here = Addr {
                ip: *private,
                port: one.relayed.port,
            };
            if wire.contains(&here) {
                ports = ports.saturating_add(1);
            }
        }
        let most = match best {
            Some(alias) => alias.ports,
            None => 0,
        };
        if ports > most {
            best = Some(Alias {
                public,
                private: *private,
                ports,
                of: granted.len() as u64,
            });
        }
    }
    best
}
