//! Tables that ended.

ghost use Rattle.std.specs.Prelude.{◌≡◌};

use audit_rules::LaneTable;
use audit_seen::{SeenNumber, Slot};
use std::mem;

/// The act that ended or made an allocation.
#[derive(Clone, Copy, Debug)]
pub struct End {
    slot: Slot,
    turn: u32,
    moment: u64,
    arrival: SeenNumber,
}

impl End {
    /// An act in a slot, by its turn among all acts, its moment, and the arrival that it answers.
    pub fn new(slot: Slot, turn: u32, moment: u64, arrival: SeenNumber) -> End {
        End {
            slot,
            turn,
            moment,
            arrival,
        }
    }

    /// The slot of the act.
    pub fn slot(&self) -> Slot
        ensures { result ≡ self.now.slot }
    {
        self.slot
    }

    /// Its turn among all acts.
    pub fn turn(&self) -> u32
        ensures { result ≡ self.now.turn }
    {
        self.turn
    }

    /// Its moment, in nanoseconds since 1970.
    pub fn moment(&self) -> u64
        ensures { result ≡ self.now.moment }
    {
        self.moment
    }

    /// The arrival that it answers.
    pub fn arrival(&self) -> SeenNumber
        ensures { result ≡ self.now.arrival }
    {
        self.arrival
    }
}

/// The table as it was before an act that ended or made an allocation.
#[derive(Drop)]
pub struct Previous {
    table: LaneTable,
    end: End,
    /// The slot and the moment of the last change of the table before that act.
    changed: (Slot, u64),
}

impl Previous {
    /// The table before an act, and the slot and the moment of its last change.
    pub fn new(table: LaneTable, end: End, changed: (Slot, u64)) -> Previous {
        Previous {
            table,
            end,
            changed,
        }
    }

    /// That table.
    pub fn table(&self) -> &LaneTable {
        &self.table
    }

    /// The table, by value.
    pub(crate) fn into_table(self) -> LaneTable {
        self.table
    }

    /// Replaces the table, and returns the old one.
    pub(crate) fn swap_table(&mut self, table: LaneTable) -> LaneTable {
        mem::replace(&mut self.table, table)
    }

    /// The act that ended it.
    pub fn end(&self) -> End
        ensures { result ≡ self.now.end }
    {
        self.end
    }

    /// The slot and the moment of the last change of the table before that act.
    pub fn changed(&self) -> (Slot, u64)
        ensures { result ≡ self.now.changed }
    {
        self.changed
    }
}
