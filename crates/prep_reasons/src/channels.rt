//! The peers of channels, if the captures show them.

use audit_model::Addr;
use std::alloc::AllocError;

/// A channel of a client, bound to a peer.
#[derive(Clone, Copy)]
pub(crate) struct Binding {
    pub(crate) pair: u32,
    pub(crate) number: u16,
    pub(crate) stamp: u64,
    pub(crate) peer: Addr,
}

/// Bindings by client, number and moment.
#[derive(Drop)]
pub(crate) struct Channels {
    all: Vec<Binding>,
}

impl Channels {
    pub(crate) fn new(bindings: Vec<Binding>) -> Result<Self, AllocError> {
        let mut all = bindings;
        all.sort_by_key(|binding| (binding.pair, binding.number, binding.stamp))?;
        Ok(Channels { all })
    }

    /// The peer to which a channel was bound last, up to a moment.
    pub(crate) fn peer(&self, pair: u32, number: u16, stamp: u64) -> Option<Addr> {
        let behind = self.all.partition_point(|binding| {
            (binding.pair, binding.number, binding.stamp) <= (pair, number, stamp)
        });
        let binding = self.all.get(behind.checked_sub(1)?)?;
        if binding.pair == pair && binding.number == number {
            Some(binding.peer)
        } else {
            None
        }
    }
}
