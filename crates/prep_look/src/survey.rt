//! The contents of captures, independent of the policy.

use crate::granted_address::{Alias, GrantedAddress};
use crate::interface::Interface;
use audit_model::{Addr, Policy};
use std::alloc::Global;
use std::collections::BTreeMap;

/// The responses that an address sent.
#[derive(Clone, Copy, Debug)]
pub(crate) struct Answers {
    /// Success responses to Binding.
    pub(crate) binding: u64,
    /// Success responses to Allocate.
    pub(crate) allocate: u64,
    /// All other responses except error responses to Binding: a peer sends none of these.
    pub(crate) other: u64,
}

impl Answers {
    /// No responses.
    pub(crate) fn none() -> Self {
        Answers {
            binding: 0,
            allocate: 0,
            other: 0,
        }
    }

    /// The sum of two counts.
    pub(crate) fn plus(self, more: Answers) -> Self {
        Answers {
            binding: self.binding.saturating_add(more.binding),
            allocate: self.allocate.saturating_add(more.allocate),
            other: self.other.saturating_add(more.other),
        }
    }
}

/// ICMP errors that report a closed port, with their least and greatest stamps.
#[derive(Clone, Copy, Debug)]
pub struct Closed {
    pub count: u64,
    pub first: u64,
    pub last: u64,
}

impl Closed {
    /// The sum with those of another address.
    pub(crate) fn plus(self, other: Closed) -> Self {
        Closed {
            count: self.count.saturating_add(other.count),
            first: self.first.min(other.first),
            last: self.last.max(other.last),
        }
    }
}

/// Whole captures, without their payloads.
#[derive(Drop)]
pub struct Survey {
    /// In the order of their numbers.
    pub(crate) interfaces: Vec<Interface>,
    pub(crate) answers: BTreeMap<Addr, Answers>,
    /// By address.
    pub(crate) granted: Vec<GrantedAddress>,
    /// At most one for each address that was granted and isn't on the wire.
    pub(crate) aliases: Vec<Alias>,
    /// By source and destination.
    pub(crate) fragments: BTreeMap<(u32, u32), u64>,
    pub(crate) cuts: BTreeMap<(u32, u32), u64>,
    /// Truncated datagrams that end before their addresses.
    pub(crate) unnamed_cuts: u64,
    /// UDP with "don't fragment", in frames that are longer than Ethernet's.
    pub(crate) long: u64,
    /// ChannelData with more than padding after its data, by source and destination.
    pub(crate) merged: BTreeMap<(Addr, Addr), u64>,
    pub(crate) closed: BTreeMap<Addr, Closed>,
}

impl Survey {
    /// No captures. It takes no memory.
    pub(crate) fn new(alloc: Global) -> Self {
        Survey {
            interfaces: Vec::new(alloc),
            answers: BTreeMap::new(alloc),
            granted: Vec::new(alloc),
            aliases: Vec::new(alloc),
            fragments: BTreeMap::new(alloc),
            cuts: BTreeMap::new(alloc),
            unnamed_cuts: 0,
            long: 0,
            merged: BTreeMap::new(alloc),
            closed: BTreeMap::new(alloc),
        }
    }

    /// Fragments with an address of the service.
    pub(crate) fn fragments_of(&self, policy: &Policy) -> u64 {
        count_of_service(&self.fragments, policy)
    }

    /// Truncated datagrams that have an address of the service or show no address.
    pub(crate) fn cuts_of(&self, policy: &Policy) -> u64 {
        count_of_service(&self.cuts, policy).saturating_add(self.unnamed_cuts)
    }

    /// ChannelData between clients and the service with more than padding after its data.
    pub(crate) fn merged_of(&self, policy: &Policy) -> u64 {
        let mut total = 0u64;
        for (ends, count) in self.merged.iter() {
            if policy.listens(ends.0) || policy.listens(ends.1) {
                total = total.saturating_add(*count);
            }
        }
        total
    }

    /// ICMP errors that report a closed listen address.
    pub(crate) fn closed_of(&self, policy: &Policy) -> Option<Closed> {
        let mut all: Option<Closed> = None;
        for (addr, closed) in self.closed.iter() {
            if policy.listens(*addr) {
                all = Some(match all {
                    Some(other) => other.plus(*closed),
                    None => *closed,
                });
            }
        }
        all
    }
}

/// How many have an address of the service.
fn count_of_service(counts: &BTreeMap<(u32, u32), u64>, policy: &Policy) -> u64 {
    let mut total = 0u64;
    for (ips, count) in counts.iter() {
        if policy.service_ip(ips.0) || policy.service_ip(ips.1) {
            total = total.saturating_add(*count);
        }
    }
    total
}
