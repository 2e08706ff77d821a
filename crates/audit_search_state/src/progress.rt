//! The progress of a lane's acts.

ghost use Rattle.std.specs.Prelude.{◌≡◌};

use audit_seen::Slot;

/// The progress of the acts.
#[derive(Clone, Copy)]
pub struct Progress {
    turn: u32,
    changed: (Slot, u64),
    /// The approximate number of entries in the table.
    weight: u64,
    last: (Slot, u64),
}

impl Progress {
    /// No act.
    pub fn none() -> Progress {
        Progress {
            turn: 0,
            changed: (Slot::least(), 0),
            weight: 0,
            last: (Slot::least(), 0),
        }
    }

    /// The turn of the last act.
    pub fn turn(&self) -> u32
        ensures { result ≡ self.now.turn }
    {
        self.turn
    }

    /// The slot and the moment of the last change of the table.
    pub fn changed(&self) -> (Slot, u64)
        ensures { result ≡ self.now.changed }
    {
        self.changed
    }

    /// The approximate number of entries in the table.
    pub fn weight(&self) -> u64
        ensures { result ≡ self.now.weight }
    {
        self.weight
    }

    /// The slot and the moment of the last act in order.
    pub fn last(&self) -> (Slot, u64)
        ensures { result ≡ self.now.last }
    {
        self.last
    }

    /// After one more act, in a table that ended.
    pub fn with_act(self) -> Progress {
        Progress {
            turn: self.turn.saturating_add(1),
            ..self
        }
    }

    /// After one more act, at a slot and its moment.
    pub fn with_act_at(self, slot: Slot, moment: u64) -> Progress {
        Progress {
            turn: self.turn.saturating_add(1),
            last: self.last.max((slot, moment)),
            ..self
        }
    }

    /// After a change of the table at a slot and its moment, by which it has about `weight` entries
    /// more.
    pub fn with_change(self, slot: Slot, moment: u64, weight: u64) -> Progress {
        Progress {
            changed: (slot, moment),
            weight: self.weight.saturating_add(weight),
            ..self
        }
    }

    /// After the end of a table at a slot and its moment.
    pub fn with_end(self, slot: Slot, moment: u64) -> Progress {
        Progress {
            changed: (slot, moment),
            weight: 0,
            ..self
        }
    }
}
