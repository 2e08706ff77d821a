//! All numbers of a proposal.

ghost use Rattle.std.specs.Prelude.{◌≡◌, IfOk};
ghost use Rattle.prep_causes.specs.Slots.{AreEmpty, is_pair, pairs_in};
ghost use Rattle.prep_causes.specs.Adding.{IsAdded};

use crate::half::{Half, Reach};
use crate::slot::Slot;
use std::alloc::{AllocError, Global};

/// The number under which a departure and its arrival are proposed, from 0.
pub type CauseNumber = u32;

/// The records so far under each number.
#[derive(Debug, Drop)]
pub struct Causes {
    reach: Reach,
    slots: Vec<Slot>,
}

impl Causes {
    /// For this count of numbers, without records.
    pub fn new(alloc: Global, reach: Reach, count: usize) -> Result<Self, AllocError>
        ensures { IfOk result (λ causes. (causes.reach ≡ reach) × AreEmpty causes.slots.items count) }
    {
        Ok(Causes {
            reach,
            slots: vec![in alloc; Slot::Empty; count]?,
        })
    }

    /// Adds an arrival or a departure. Nothing changes if there is no such number.
    pub fn add(&mut self, number: CauseNumber, half: Half)
        ensures { IsAdded self.old number half self.new }
    {
        let at = number as usize;
        if at < self.slots.len() {
            self.slots[at] = self.slots[at].with(half, self.reach);
        }
    }

    /// How far apart the moments of an arrival and of its departure may be.
    pub fn reach(&self) -> Reach
        ensures { result ≡ self.now.reach }
    {
        self.reach
    }

    /// The number of departures that have their arrival. The cost is the count of numbers.
    pub fn pairs(&self) -> usize
        ensures { result ≡ pairs_in self.now.slots.items }
    {
        self.slots.iter().filter(|slot| is_pair(slot)).count()
    }
}

fn is_pair(slot: &Slot) -> bool
    ensures { result ≡ is_pair slot.now }
{
    match slot {
        Slot::Pair => true,
        Slot::Empty | Slot::One(_) => false,
    }
}
