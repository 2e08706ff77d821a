//! The responses about allocations.

ghost use Rattle.std.specs.Prelude.{◌≡◌};

use crate::times::Times;
use audit_model::Addr;
use audit_seen::{Content, LaneNumber, Seen, SeenNumber, Sights};
use std::alloc::{AllocError, Global};

/// A response about a lane's allocation. They are ordered by lane, then by time.
#[derive(Clone, Copy, Debug, PartialEq, Eq, PartialOrd, Ord)]
pub struct LaneResponse {
    lane: LaneNumber,
    when: u64,
    number: SeenNumber,
}

impl LaneResponse {
    /// The lane.
    pub fn lane(&self) -> LaneNumber
        ensures { result ≡ self.now.lane }
    {
        self.lane
    }

    /// Its estimated moment.
    pub fn when(&self) -> u64
        ensures { result ≡ self.now.when }
    {
        self.when
    }

    /// The response's number.
    pub fn number(&self) -> SeenNumber
        ensures { result ≡ self.now.number }
    {
        self.number
    }
}

/// A response that grants an address. They are ordered by address, then by time.
#[derive(Clone, Copy, Debug, PartialEq, Eq, PartialOrd, Ord)]
pub struct Made {
    relayed: Addr,
    when: u64,
    number: SeenNumber,
}

impl Made {
    /// The relayed address.
    pub fn relayed(&self) -> Addr
        ensures { result ≡ self.now.relayed }
    {
        self.relayed
    }

    /// Its estimated moment.
    pub fn when(&self) -> u64
        ensures { result ≡ self.now.when }
    {
        self.when
    }

    /// The response's number.
    pub fn number(&self) -> SeenNumber
        ensures { result ≡ self.now.number }
    {
        self.number
    }
}

/// The responses by which allocations were made, deleted and refreshed, each kind in order.
#[derive(Drop)]
pub struct Changes {
    made: Vec<Made>,
    ended: Vec<LaneResponse>,
    kept: Vec<LaneResponse>,
}

impl Changes {
    /// The changes of all responses. It takes n log n.
    pub fn gather(alloc: Global, sights: &Sights, times: &Times) -> Result<Changes, AllocError> {
        let mut changes = Changes {
            made: Vec::new(alloc),
            ended: Vec::new(alloc),
            kept: Vec::new(alloc),
        };
        for (place, seen) in sights.as_slice().iter().enumerate() {
            if let Ok(number) = u32::try_from(place) {
                let number = SeenNumber::new(number);
                changes.note(seen, number, times.of(number).when())?;
            }
        }
        changes.made.sort_unstable();
        changes.ended.sort_unstable();
        changes.kept.sort_unstable();
        Ok(changes)
    }

    fn note(&mut self, seen: &Seen, number: SeenNumber, when: u64) -> Result<(), AllocError> {
        let Some(lane) = seen.lane() else {
            return Ok(());
        };
        match seen.content() {
            Some(Content::Allocated { relayed, .. }) => self.made.push(Made {
                relayed,
                when,
                number,
            })?,
            Some(Content::Deleted) => self.ended.push(LaneResponse { lane, when, number })?,
            Some(Content::Refreshed { .. }) => self.kept.push(LaneResponse { lane, when, number })?,
            _ => {}
        }
        Ok(())
    }

    /// The responses that grant addresses, by address and time.
    pub fn made(&self) -> &[Made] {
        self.made.as_slice()
    }

    /// The first response to a lane after a moment by which its allocation was deleted.
    pub fn end_after(&self, lane: LaneNumber, when: u64) -> Option<SeenNumber> {
        let place = self
            .ended
            .partition_point(|response| (response.lane, response.when) <= (lane, when));
        match self.ended.get(place) {
            Some(response) if response.lane == lane => Some(response.number),
            _ => None,
        }
    }

    /// The responses after a moment by which an allocation was refreshed, those of the lane first.
    pub fn refreshed_after(&self, lane: LaneNumber, when: u64) -> &[LaneResponse] {
        let place = self
            .kept
            .partition_point(|response| (response.lane, response.when) <= (lane, when));
        self.kept.get(place..).unwrap_or(&[])
    }
}
