//! Groups of carriers: the bytes of one carrier may be in the data of another one of its group.

use prep_causes::MaybeNumber;
use std::alloc::{AllocError, Global};

/// The link of a carrier to an earlier one.
#[derive(Clone, Copy)]
struct Link {
    /// A carrier of its group, which is itself or a lesser one.
    lesser: u32,
    /// The earlier carrier of its connection, some of whose bytes moved to this one. No departure
    /// has taken any of them so far.
    before: MaybeNumber,
    /// How many of its remaining bytes were moved.
    moved: u32,
}

/// The links of all carriers. Groups are joined only if a departure takes moved bytes, so one
/// connection is many groups if its packets carry whole messages.
#[derive(Drop)]
pub(crate) struct Links {
    all: Vec<Link>,
}

impl Links {
    /// Links of this number of carriers, each of which is a group of its own.
    pub(crate) fn new(alloc: Global, count: usize) -> Result<Self, AllocError> {
        let mut all = Vec::with_capacity(alloc, count)?;
        for at in 0..count {
            all.push(Link {
                lesser: u32::try_from(at).unwrap_or(u32::MAX),
                before: MaybeNumber::none(),
                moved: 0,
            })?;
        }
        Ok(Links { all })
    }

    /// Records that a carrier gets all bytes of an earlier one.
    pub(crate) fn move_on(&mut self, before: u32, to: u32, bytes: u32) {
        self.join(to);
        if let Some(link) = self.all.get_mut(before as usize) {
            link.moved = 0;
        }
        if let Some(link) = self.all.get_mut(to as usize) {
            link.before = MaybeNumber::some(before);
            link.moved = bytes;
        }
    }

    /// Records that a departure takes bytes of a carrier that has `has` bytes. It takes the
    /// carrier's own bytes first.
    pub(crate) fn spend(&mut self, carrier: u32, has: u32, bytes: u32) {
        let moved = match self.all.get(carrier as usize) {
            Some(link) => link.moved,
            None => 0,
        };
        if bytes > has.saturating_sub(moved) {
            self.join(carrier);
        }
    }

    /// Joins the groups of a carrier and of all carriers from which it has bytes.
    fn join(&mut self, carrier: u32) {
        let mut at = carrier;
        'links: for _ in 0..self.all.len() {
            let Some(link) = self.all.get_mut(at as usize) else {
                return;
            };
            link.moved = 0;
            let Some(before) = link.before.get() else {
                return;
            };
            link.before = MaybeNumber::none();
            self.unite(before, at);
            at = before;
        }
    }

    fn unite(&mut self, one: u32, other: u32) {
        let (one, other) = (self.root(one), self.root(other));
        if let Some(link) = self.all.get_mut(one.max(other) as usize) {
            link.lesser = one.min(other);
        }
    }

    /// The least carrier of a carrier's group. The cost of all is nearly their number times its
    /// logarithm.
    pub(crate) fn root(&mut self, carrier: u32) -> u32 {
        let mut at = carrier;
        'path: for _ in 0..self.all.len() {
            let lesser = self.lesser(at);
            let next = self.lesser(lesser);
            if next == at {
                return at;
            }
            if let Some(link) = self.all.get_mut(at as usize) {
                link.lesser = next;
            }
            at = next;
        }
        at
    }

    fn lesser(&self, carrier: u32) -> u32 {
        match self.all.get(carrier as usize) {
            Some(link) => link.lesser,
            None => carrier,
        }
    }
}
