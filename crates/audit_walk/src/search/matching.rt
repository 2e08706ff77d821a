//! Matches data that leaves with the data that arrived for it.

use super::Search;
use crate::causes::Cause;
use crate::clock::{after, is_open, open_behind};
use crate::datagrams::CANDIDATES;
use crate::interfaces::{Data, Wait};
use crate::judge::Judge;
use crate::lanes::Origins;
use crate::numbers::ArrivalNumber;
use audit_model::{Key, Sighting};
use audit_seen::LaneNumber;
use std::alloc::AllocError;

/// The arrival for which a departure is sent.
#[derive(Clone, Copy, Debug)]
pub(super) enum Choice {
    /// The rules allow it in this lane, for this arrival, at this key.
    Acts(LaneNumber, ArrivalNumber, Key),
    /// It may be an arrival that has no key yet, and has this first moment.
    Waits(ArrivalNumber, u64),
    /// None of the arrivals of its causes.
    None,
}

impl Choice {
    /// The better of two choices: one that acts, or else the one with the lesser first moment.
    fn or(self, other: Choice) -> Choice {
        match (self, other) {
            (Choice::Acts(..), _) | (_, Choice::None) => self,
            (_, Choice::Acts(..)) | (Choice::None, _) => other,
            (Choice::Waits(_, this), Choice::Waits(_, that)) => {
                if that < this { other } else { self }
            }
        }
    }
}

impl Search {
    /// Places data after its act, or returns what it waits for.
    ///
    /// The act is placed when the data leaves, so that a permission that was requested before is
    /// there. Otherwise it is placed before the allocation was deleted, or at the arrival, before
    /// the permission ended. If the rules allow none of these, delayed responses are acted on.
    pub(super) fn place_data(
        &mut self,
        judge: &Judge<'_>,
        leaves: &Sighting,
        data: &Data,
    ) -> Result<Option<Wait>, AllocError> {
        let mut choice = self.choose_by(judge, leaves, data)?;
        if let Choice::None = choice {
            if self.clock.has_time() {
                return Ok(Some(Wait::Next));
            }
            choice = self.choose_early(judge, leaves, data)?;
        }
        match choice {
            Choice::Acts(lane, number, key) => {
                self.write_act(judge, lane, number, leaves.id, key)?;
                self.leave(judge, lane, leaves)
            }
            Choice::Waits(number, _) => Ok(Some(Wait::Arrival(number))),
            Choice::None => self.place_unexplained(judge, leaves, data),
        }
    }

    /// Places data that the rules don't allow after an act on its most likely arrival.
    fn place_unexplained(
        &mut self,
        judge: &Judge<'_>,
        leaves: &Sighting,
        data: &Data,
    ) -> Result<Option<Wait>, AllocError> {
        self.found.mark_suspect();
        let origins = self.lanes.origins_of(judge, leaves, data);
        let lane = match origins.or(self.origins_by_last_sender(judge, leaves, data.digest())) {
            Some(origins) => match self.likely(judge, &origins, leaves)? {
                Some((lane, number)) => {
                    let key = self.clock.tick();
                    self.write_act(judge, lane, number, leaves.id, key)?;
                    lane
                }
                None => origins.lane(),
            },
            None => return Ok(None),
        };
        self.leave(judge, lane, leaves)
    }

    /// The possible causes of data from an address that nobody has or had: those of the last client
    /// that sent data, or else of the first client.
    fn origins_by_last_sender(
        &self,
        judge: &Judge<'_>,
        leaves: &Sighting,
        digest: u64,
    ) -> Option<Origins> {
        if judge.policy().listens(leaves.from) {
            return None;
        }
        let lane = self.datagrams.last_sender().or(self.lanes.first())?;
        Some(self.lanes.origins_in_lane(lane, leaves, digest))
    }

    /// The first arrival of the data's causes for which the rules allow it, or for which it waits.
    pub(super) fn choose_by(
        &mut self,
        judge: &Judge<'_>,
        leaves: &Sighting,
        data: &Data,
    ) -> Result<Choice, AllocError> {
        match self.lanes.origins_of(judge, leaves, data) {
            Some(origins) => self.choose(judge, &origins, leaves),
            None => Ok(Choice::None),
        }
    }

    fn choose(
        &mut self,
        judge: &Judge<'_>,
        origins: &Origins,
        leaves: &Sighting,
    ) -> Result<Choice, AllocError> {
        let mut choice = Choice::None;
        for origin in origins.as_slice() {
            if let Some(origin) = origin {
                let other = self.choose_of(judge, origin.lane(), origin.cause(), leaves)?;
                choice = choice.or(other);
                if let Choice::Acts(..) = choice {
                    return Ok(choice);
                }
            }
        }
        Ok(choice)
    }

    /// The first arrival of a cause for which the rules allow the departure, of up to `CANDIDATES`.
    fn choose_of(
        &mut self,
        judge: &Judge<'_>,
        lane: LaneNumber,
        cause: &Cause,
        leaves: &Sighting,
    ) -> Result<Choice, AllocError> {
        let earliest = self.earliest(judge);
        let mut next = self.datagrams.skip_to_first(cause, earliest);
        for _ in 0..CANDIDATES {
            let Some(number) = next else {
                return Ok(Choice::None);
            };
            let Some(arrives) = self.datagrams.arrives(judge, number) else {
                return Ok(Choice::None);
            };
            if self.datagrams.may_come(judge, &self.clock, number) {
                return Ok(Choice::Waits(number, judge.first_moment(arrives)));
            }
            if !self.count_try(leaves.id.iface, arrives, leaves) {
                return Ok(Choice::None);
            }
            if let Some(key) = self.key_by(judge, lane, number, leaves)? {
                return Ok(Choice::Acts(lane, number, key));
            }
            next = self.datagrams.next_arrival(number);
        }
        Ok(Choice::None)
    }

    /// Counts an act that is tried for the next departure of an interface, and returns whether it
    /// may be tried.
    pub(super) fn count_try(&mut self, iface: u32, arrives: &Sighting, leaves: &Sighting) -> bool {
        let is_last_moment = !self.clock.has_time();
        let bytes = arrives
            .payload
            .as_slice()
            .len()
            .saturating_add(leaves.payload.as_slice().len());
        self.interfaces.count_try(iface, is_last_moment, bytes)
    }

    /// The key at which the rules allow the departure for that arrival.
    fn key_by(
        &mut self,
        judge: &Judge<'_>,
        lane: LaneNumber,
        number: ArrivalNumber,
        leaves: &Sighting,
    ) -> Result<Option<Key>, AllocError> {
        let Some(came) = self.datagrams.waiting_since(number) else {
            return Ok(None);
        };
        let Some(arrives) = self.datagrams.arrives(judge, number) else {
            return Ok(None);
        };
        let now = self.clock.tick();
        let placed_to = self.placed_to;
        let Some(client) = self.lanes.get_mut(lane) else {
            return Ok(None);
        };
        if client.relays(judge, arrives, leaves, now)? {
            return Ok(Some(now));
        }
        let behind = open_behind(placed_to, came);
        let before = client.relay_before_deletion(judge, arrives, leaves, behind)?;
        if before.is_some() {
            return Ok(before);
        }
        let early = after(came);
        if client.had_allocation_at(came)
            && is_open(placed_to, came)
            && client.relays(judge, arrives, leaves, early)?
        {
            // The permission may have been granted only after the arrival.
            self.found.mark_suspect();
            return Ok(Some(early));
        }
        Ok(None)
    }

    /// The most likely arrival of a departure that the rules don't allow, and its lane: one of its
    /// causes, or else the last data that came to the lane.
    fn likely(
        &mut self,
        judge: &Judge<'_>,
        origins: &Origins,
        leaves: &Sighting,
    ) -> Result<Option<(LaneNumber, ArrivalNumber)>, AllocError> {
        let earliest = self.earliest(judge);
        for origin in origins.as_slice() {
            if let Some(origin) = origin {
                let cause = origin.cause();
                if let Some(number) = self.datagrams.skip_to_first(cause, earliest) {
                    if self.datagrams.waiting_since(number).is_some() {
                        return Ok(Some((origin.lane(), number)));
                    }
                }
                if let Some(number) = self.datagrams.previous(cause, earliest)? {
                    return Ok(Some((origin.lane(), number)));
                }
            }
        }
        Ok(self.last_of(judge, origins, leaves, earliest))
    }

    /// The last data that came to a lane in the departure's direction, no earlier than `earliest`.
    fn last_of(
        &self,
        judge: &Judge<'_>,
        origins: &Origins,
        leaves: &Sighting,
        earliest: u64,
    ) -> Option<(LaneNumber, ArrivalNumber)> {
        let last = self.lanes.get(origins.lane())?.last();
        let number = if judge.policy().listens(leaves.from) {
            last.received()?
        } else {
            last.sent()?
        };
        if self.datagrams.waiting_since(number)?.moment < earliest {
            return None;
        }
        Some((origins.lane(), number))
    }
}
