//! The number of packets of a file so far, and of datagrams of the service on each interface.

ghost use Rattle.std.specs.Prelude.{◌≡◌, ◌<◌, ◌+◌, ◌-◌, ◌^◌, ℕ, min, vec_len, slice_index_or, slice_set, IfOk};

use std::alloc::{AllocError, Global};

/// How many interfaces a file may have.
pub(crate) const INTERFACES: u32 = 64;

/// Counts, up to 64 bits.
#[derive(Drop)]
pub(crate) struct Tally {
    pub(crate) packets: u64,
    /// By the interface's number in the file.
    sightings: Vec<u64>,
    pub ghost interfaces: { vec_len sightings ≡ 64 },
}

impl Tally {
    /// No packets.
    pub(crate) fn new(alloc: Global) -> Result<Tally, AllocError>
        ensures packets { IfOk result (λ tally. tally.packets ≡ 0) }
        ensures sightings { IfOk result (λ tally. (number : ℕ) → number < 64 → slice_index_or tally.sightings.items number 0 ≡ 0) }
    {
        Ok(Tally {
            packets: 0,
            sightings: vec![in alloc; 0u64; INTERFACES as usize]?,
        })
    }

    /// Counts a packet.
    pub(crate) fn add_packet(&mut self)
        ensures packets { self.new.packets ≡ min (self.old.packets + 1) (2 ^ 64 - 1) }
        ensures sightings { self.new.sightings ≡ self.old.sightings }
    {
        self.packets = self.packets.saturating_add(1);
    }

    /// Counts a datagram of the service, and returns the interface's earlier count.
    pub(crate) fn add_sighting(&mut self, number: u32) -> u64
        requires { number < 64 }
        ensures before { result ≡ slice_index_or self.old.sightings.items number 0 }
        ensures packets { self.new.packets ≡ self.old.packets }
        ensures sightings { self.new.sightings.items ≡ slice_set self.old.sightings.items number (min (result + 1) (2 ^ 64 - 1)) }
    {
        let count = &mut self.sightings[number as usize];
        let before = *count;
        *count = before.saturating_add(1);
        before
    }
}
