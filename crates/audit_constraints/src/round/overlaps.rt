//! Allocations of two lanes that hold one relayed address at a time.

ghost use Rattle.std.specs.Prelude.{◌≡◌};

use super::Round;
use crate::act::Act;
use crate::reading::Reading;
use audit_model::Addr;
use audit_seen::{Content, LaneNumber, SeenNumber, Slot};
use std::alloc::AllocError;

/// The nanoseconds of a second.
const SECOND: u64 = 1_000_000_000;

/// An allocation, by the acts of its lane.
#[derive(Clone, Copy, Debug)]
struct Held {
    relayed: Addr,
    /// Its first act, and the moment of that act.
    born: Slot,
    since: u64,
    lane: LaneNumber,
    /// The response that granted it.
    maker: SeenNumber,
    /// The response that granted its last lease, and the last moment of that lease.
    answer: SeenNumber,
    last: u64,
    /// The act that ended it.
    ended: Option<Slot>,
}

impl Held {
    /// Whether it still has its address when another allocation begins.
    fn overlaps(&self, next: &Held) -> bool {
        let is_ended = self.ended.is_some_and(|ended| ended < next.born);
        self.relayed == next.relayed
            && self.lane != next.lane
            && !is_ended
            && self.last >= next.since
    }
}

/// Two lanes that have the same relayed address at the same time.
#[derive(Clone, Copy, Debug)]
pub struct Overlap {
    lane: LaneNumber,
    answer: SeenNumber,
    maker: SeenNumber,
    next_lane: LaneNumber,
    next: SeenNumber,
}

impl Overlap {
    /// The lane that has the address when the other allocation begins.
    pub fn lane(&self) -> LaneNumber
        ensures { result ≡ self.now.lane }
    {
        self.lane
    }

    /// The response that granted the last lease of its allocation.
    pub fn answer(&self) -> SeenNumber
        ensures { result ≡ self.now.answer }
    {
        self.answer
    }

    /// The response that granted its allocation.
    pub fn maker(&self) -> SeenNumber
        ensures { result ≡ self.now.maker }
    {
        self.maker
    }

    /// The other lane.
    pub fn next_lane(&self) -> LaneNumber
        ensures { result ≡ self.now.next_lane }
    {
        self.next_lane
    }

    /// The response that granted the other lane's allocation.
    pub fn next(&self) -> SeenNumber
        ensures { result ≡ self.now.next }
    {
        self.next
    }
}

/// The allocations by the acts.
#[derive(Drop)]
struct Holding {
    /// How long the server may keep a lease after its end, in nanoseconds.
    grace: u64,
    /// By lane, its present allocation.
    now: Vec<Option<Held>>,
    /// The allocations that have ended.
    over: Vec<Held>,
}

impl Holding {
    /// The last moment of a lease of this number of seconds.
    fn last(&self, moment: u64, seconds: u32) -> u64 {
        let lease = u64::from(seconds).saturating_mul(SECOND);
        moment.saturating_add(lease).saturating_add(self.grace)
    }

    /// Records the effect of an act at a moment.
    fn note(&mut self, act: &Act, content: Content, moment: u64) -> Result<(), AllocError> {
        let (slot, lane, answer) = (act.slot(), act.lane(), act.departure());
        match content {
            Content::Allocated { relayed, seconds } => self.begin(Held {
                relayed,
                born: slot,
                since: moment,
                lane,
                maker: answer,
                answer,
                last: self.last(moment, seconds),
                ended: None,
            }),
            Content::Refreshed { seconds } => {
                let last = self.last(moment, seconds);
                if let Some(Some(held)) = self.now.get_mut(lane.index()) {
                    held.last = last;
                    held.answer = answer;
                }
                Ok(())
            }
            Content::Deleted => self.end(lane, slot),
            _ => Ok(()),
        }
    }

    /// Records an allocation, unless it is the present one of its lane.
    fn begin(&mut self, next: Held) -> Result<(), AllocError> {
        let Some(place) = self.now.get_mut(next.lane.index()) else {
            return Ok(());
        };
        let is_again = place.is_some_and(|held| held.relayed == next.relayed
            && next.since <= held.last);
        if !is_again {
            if let Some(held) = place.replace(next) {
                self.over.push(held)?;
            }
        }
        Ok(())
    }

    /// Records that the allocation of a lane ended.
    fn end(&mut self, lane: LaneNumber, slot: Slot) -> Result<(), AllocError> {
        if let Some(held) = self
            .now
            .get_mut(lane.index())
            .and_then(|place| place.take())
        {
            let ended = Some(slot);
            self.over.push(Held { ended, ..held })?;
        }
        Ok(())
    }

    /// All allocations, by address, the first one first.
    fn all(self) -> Result<Vec<Held>, AllocError> {
        let Holding { now, mut over, .. } = self;
        for held in now.iter().flatten() {
            over.push(*held)?;
        }
        over.sort_unstable_by_key(|held| (held.relayed, held.born));
        Ok(over)
    }
}

impl Round {
    /// The lanes that have an address when another allocation of it begins. It takes n log n.
    pub fn overlaps(&self, reading: &Reading<'_>) -> Result<Vec<Overlap>, AllocError> {
        let alloc = reading.alloc();
        let mut holding = Holding {
            grace: reading.policy().grace,
            now: vec![in alloc; None; reading.lanes()]?,
            over: Vec::new(alloc),
        };
        for act in &self.acts {
            let content = reading
                .sights()
                .get(act.departure())
                .and_then(|seen| seen.content());
            if let Some(content) = content {
                holding.note(act, content, self.moment_of(act.slot()))?;
            }
        }
        let over = holding.all()?;
        let mut found = Vec::new(alloc);
        for pair in over.windows(2) {
            if let [first, second] = pair {
                if first.overlaps(second) {
                    found.push(Overlap {
                        lane: first.lane,
                        answer: first.answer,
                        maker: first.maker,
                        next_lane: second.lane,
                        next: second.maker,
                    })?;
                }
            }
        }
        Ok(found)
    }

    /// The moment of a slot.
    fn moment_of(&self, slot: Slot) -> u64 {
        match self.placed.in_order().get(slot.rank() as usize) {
            Some(sighting) => self.placed.at(*sighting),
            None => 0,
        }
    }
}
