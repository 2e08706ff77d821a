//! Assigns keys to events: moments that never decrease, and a tie for each event of one moment.

use audit_model::Key;

/// The last key, and the moment until which the current departure can wait.
#[derive(Clone, Copy, Debug)]
pub struct Clock {
    moment: u64,
    /// The next tie.
    tie: u32,
    /// The latest moment of the current departure.
    latest: u64,
}

impl Clock {
    pub fn new() -> Clock {
        Clock {
            moment: 0,
            tie: 0,
            latest: 0,
        }
    }

    /// The moment, in nanoseconds since 1970.
    pub fn moment(&self) -> u64 {
        self.moment
    }

    /// Advances to a moment, if it is later.
    pub fn reach(&mut self, moment: u64) {
        if moment > self.moment {
            self.moment = moment;
            self.tie = 0;
        }
    }

    /// The next key at this moment.
    pub fn tick(&mut self) -> Key {
        let key = Key {
            moment: self.moment,
            tie: self.tie,
        };
        self.tie = self.tie.saturating_add(1);
        key
    }

    /// The next key at this moment; the `count` keys after it are kept free.
    pub fn reserve(&mut self, count: u32) -> Key {
        let key = self.tick();
        self.tie = self.tie.saturating_add(count);
        key
    }

    /// Begins to place a departure that can wait until `latest`.
    pub fn begin_departure(&mut self, latest: u64) {
        self.latest = latest;
    }

    /// Lets the current departure wait until `latest` at most.
    pub fn limit(&mut self, latest: u64) {
        self.latest = self.latest.min(latest);
    }

    /// The latest moment of the current departure.
    pub fn latest(&self) -> u64 {
        self.latest
    }

    /// Whether the current departure can still wait.
    pub fn has_time(&self) -> bool {
        self.moment < self.latest
    }
}

/// The key after this one, at the same moment.
pub fn after(key: Key) -> Key {
    Key {
        moment: key.moment,
        tie: key.tie.saturating_add(1),
    }
}

/// Whether an event may still be emitted at a key, if events were emitted up to a horizon.
pub fn is_open(placed_to: Option<u64>, key: Key) -> bool {
    placed_to.is_none_or(|placed_to| key.moment > placed_to)
}

/// The least key after which an event that follows `key` may still be emitted, if events were
/// emitted up to a horizon.
pub fn open_behind(placed_to: Option<u64>, key: Key) -> Key {
    match placed_to {
        Some(moment) if key.moment <= moment => Key {
            moment,
            tie: u32::MAX,
        },
        _ => key,
    }
}
