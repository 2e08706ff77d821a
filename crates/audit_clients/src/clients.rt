//! The clients, in the order in which they are first seen.

ghost use Rattle.std.specs.Prelude.{◌≡◌, ◌<◌, ◌≤◌, [], drop, take, length, slice_index_or, IfOk, IfSome, OnOk};
ghost use Rattle.std.specs.List.{IsDistinct};
ghost use Rattle.audit_model.specs.declared.certificate.TheConstants.{MAX_LANES};
ghost use Rattle.audit_clients.specs.Clients.{same, is_from_client, joined, pairs_of, unseen, with_new, row_lengths, lane_in};
ghost use Rattle.audit_sightings.specs.Intake.{taken, interface_at};

use crate::pairs::Pairs;
use audit_model::{Addr, MAX_LANES, Policy, Side, Sighting};
use audit_sightings::Intake;
use std::alloc::{AllocError, Global};
use std::hash::RandomState;

/// The pairs of a client and a listen address, each once, in the order of its first arrival.
#[derive(Drop)]
pub struct Clients {
    pub pairs: Pairs,
    /// How many sightings of each interface were read.
    pub looked: Vec<usize>,
}

/// Whether the sighting arrives at a listen address.
fn arrives_at_listen(policy: &Policy, sighting: &Sighting) -> bool
    ensures { result ≡ is_from_client policy.now sighting.now }
{
    match sighting.side {
        Side::Arrives => policy.listens(sighting.to),
        Side::Leaves => false,
    }
}

/// Adds the pairs of sightings, in order.
fn join(pairs: &mut Pairs, policy: &Policy, row: &[Sighting]) -> Result<(), AllocError>
    ensures { OnOk result (pairs.new ≡ joined pairs.old (pairs_of policy.now row.now)) }
{
    for sighting in row {
        if arrives_at_listen(policy, sighting) {
            pairs.insert(sighting.from, sighting.to)?;
        }
    }
    Ok(())
}

/// The sightings of an interface that weren't read yet.
fn behind<'a>(intake: &'a Intake, looked: &[usize], iface: u32) -> &'a [Sighting]
    ensures { result.now ≡ drop (slice_index_or looked.now iface 0) (interface_at (taken intake.now) iface) }
{
    let from = looked.get(iface as usize).copied().unwrap_or(0);
    intake.interface(iface).get(from..).unwrap_or(&[])
}

/// Adds the pairs of the sightings that weren't read yet, interface by interface.
fn join_unseen(pairs: &mut Pairs, looked: &[usize], intake: &Intake) -> Result<(), AllocError>
    ensures { OnOk result (pairs.new ≡ with_new looked.now (taken intake.now) pairs.old) }
{
    'interfaces: for iface in 0..intake.interfaces() {
        join(pairs, intake.policy(), behind(intake, looked, iface))?;
    }
    Ok(())
}

/// The number of sightings of each interface.
fn lengths(alloc: Global, intake: &Intake) -> Result<Vec<usize>, AllocError>
    ensures { IfOk result (λ lengths. lengths.items ≡ row_lengths (taken intake.now)) }
{
    let mut lengths = Vec::new(alloc);
    'interfaces: for iface in 0..intake.interfaces() {
        lengths.push(intake.interface(iface).len())?;
    }
    Ok(lengths)
}

/// The clients that have lanes.
fn with_lanes(pairs: &[(Addr, Addr)]) -> &[(Addr, Addr)]
    ensures { result.now ≡ take MAX_LANES pairs.now }
{
    if pairs.len() <= MAX_LANES {
        pairs
    } else {
        &pairs[..MAX_LANES]
    }
}

/// The pairs from an index on.
fn from(pairs: &[(Addr, Addr)], first: usize) -> &[(Addr, Addr)]
    ensures { result.now ≡ drop first pairs.now }
{
    pairs.get(first..).unwrap_or(&[])
}

impl Clients {
    /// No clients. It takes no memory. The senders of datagrams to the server must not know the
    /// seed.
    pub fn new(alloc: Global, seed: RandomState) -> Clients
        ensures pairs { result.pairs ≡ [] }
        ensures looked { result.looked.items ≡ [] }
    {
        Clients {
            pairs: Pairs::new(alloc, seed),
            looked: Vec::new(alloc),
        }
    }

    /// The number of clients.
    pub fn len(&self) -> usize
        ensures { result ≡ length self.now.pairs }
    {
        self.pairs.as_slice().len()
    }

    /// The number of the lane of a client at a listen address, if it has one.
    pub fn lane_of(&self, client: Addr, listen: Addr) -> Option<u32>
        ensures which { result ≡ lane_in self.now.pairs (client, listen) }
        ensures few { IfSome result (λ lane. lane < MAX_LANES) }
    {
        let place = self.pairs.place_of(client, listen)?;
        if place >= MAX_LANES {
            return None;
        }
        Some(place as u32)
    }

    /// The client and the listen address of each lane, from a number on.
    pub fn lanes_from(&self, first: usize) -> &[(Addr, Addr)]
        ensures which { result.now ≡ drop first (take MAX_LANES self.now.pairs) }
        ensures apart { IsDistinct same result.now }
        ensures few { length result.now ≤ MAX_LANES }
    {
        from(with_lanes(self.pairs.as_slice()), first)
    }

    /// The client and the listen address of each lane.
    pub fn lanes(&self) -> &[(Addr, Addr)]
        ensures which { result.now ≡ take MAX_LANES self.now.pairs }
        ensures apart { IsDistinct same result.now }
        ensures few { length result.now ≤ MAX_LANES }
    {
        self.lanes_from(0)
    }

    /// Adds the clients of the sightings that are new in the intake.
    pub fn take_in(&mut self, alloc: Global, intake: &Intake) -> Result<(), AllocError>
        ensures pairs { OnOk result (self.new.pairs ≡ with_new self.old.looked.items (taken intake.now) self.old.pairs) }
        ensures looked { OnOk result (self.new.looked.items ≡ row_lengths (taken intake.now)) }
    {
        join_unseen(&mut self.pairs, &self.looked, intake)?;
        self.looked = lengths(alloc, intake)?;
        Ok(())
    }
}
