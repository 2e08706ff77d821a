//! Places departures.

use super::Search;
use crate::content::answer_of;
use crate::datagrams::{Answer, Transaction};
use crate::interfaces::Wait;
use crate::judge::Judge;
use crate::numbers::{AnswerNumber, ArrivalNumber};
use audit_content::parse_to_client;
use audit_model::{Addr, Event, Sighting};
use audit_seen::LaneNumber;
use std::alloc::AllocError;

/// How many delayed responses are acted on so that another one may be.
pub(super) const ACTS_BEFORE: usize = 8;

impl Search {
    /// Places a success or error response after its act, or returns what it waits for.
    pub(super) fn place_answer(
        &mut self,
        judge: &Judge<'_>,
        answer: AnswerNumber,
        leaves: &Sighting,
    ) -> Result<Option<Wait>, AllocError> {
        let (Some(lane), Some(known)) = (
            judge.lane_of(leaves.to, leaves.from),
            self.datagrams.answer(answer).copied(),
        ) else {
            self.found.mark_suspect();
            return Ok(None);
        };
        if !known.is_acted() {
            let request = match known.request() {
                Some(request) => Some(request),
                None => self.request_for(judge, lane, leaves)?,
            };
            if let Some(request) = request {
                if self.datagrams.may_come(judge, &self.clock, request) {
                    return Ok(Some(Wait::Arrival(request)));
                }
                if self.is_held_elsewhere(judge, &known) && self.clock.has_time() {
                    return Ok(Some(Wait::Next));
                }
                if let Some(data) = self.data_before(judge, lane, &known, leaves) {
                    return Ok(Some(Wait::Data(data)));
                }
                self.answer_late(judge, lane, request, answer)?;
            }
        }
        if !self.datagrams.may_leave(judge, self.clock.moment(), answer) {
            self.found.mark_suspect();
        }
        self.leave(judge, lane, leaves)
    }

    /// Writes that a datagram leaves.
    pub(super) fn leave(
        &mut self,
        judge: &Judge<'_>,
        lane: LaneNumber,
        leaves: &Sighting,
    ) -> Result<Option<Wait>, AllocError> {
        let key = self.clock.tick();
        if key.moment > judge.last_moment(leaves) {
            self.found.mark_suspect();
        }
        let sight = leaves.id;
        self.found.push(lane, Event::Out { sight, key })?;
        Ok(None)
    }

    /// The most likely request of a response: one of its transaction, or else the client's last
    /// one.
    fn request_for(
        &mut self,
        judge: &Judge<'_>,
        lane: LaneNumber,
        leaves: &Sighting,
    ) -> Result<Option<ArrivalNumber>, AllocError> {
        let sent = parse_to_client(leaves.payload.as_slice());
        let Some(answer) = sent.and_then(|sent| answer_of(&sent)) else {
            return Ok(None);
        };
        let (id, _) = answer;
        let earliest = self.earliest(judge);
        let transaction = Transaction::new(lane, id);
        let likely = self.datagrams.likely_request(&transaction, earliest)?;
        if likely.is_some() {
            return Ok(likely);
        }
        Ok(
            self.lanes
                .get(lane)
                .and_then(|client| client.last().request()),
        )
    }

    /// The earliest arrival to which a response may leave now.
    pub(super) fn earliest(&self, judge: &Judge<'_>) -> u64 {
        judge.earliest_arrival(self.clock.moment())
    }

    /// Another lane that holds a relayed address now.
    pub(super) fn other_holder(&self, lane: LaneNumber, relayed: Addr) -> Option<LaneNumber> {
        self.lanes.other_holder(lane, relayed, self.clock.moment())
    }

    /// Whether a response makes an allocation whose address another client holds and hasn't
    /// requested to delete yet, or must have before.
    fn is_held_elsewhere(&self, judge: &Judge<'_>, answer: &Answer) -> bool {
        let Some(relayed) = answer.relayed() else {
            return false;
        };
        let is_held = match self.other_holder(answer.lane(), relayed) {
            Some(holder) => match self.lanes.get(holder) {
                Some(client) => client.pending_deletion().is_none(),
                None => false,
            },
            None => false,
        };
        is_held || self.has_to_follow(judge, answer)
    }

    /// Whether another client must have had the relayed address of a response before.
    pub(super) fn has_to_follow(&self, judge: &Judge<'_>, answer: &Answer) -> bool {
        let earliest = self.earliest(judge);
        self.lanes
            .has_to_follow(judge, &self.datagrams, answer, earliest)
    }

    /// Acts on a request now that its response leaves. If the rules allow that only after other
    /// delayed responses, those are acted on first.
    fn answer_late(
        &mut self,
        judge: &Judge<'_>,
        lane: LaneNumber,
        number: ArrivalNumber,
        answer: AnswerNumber,
    ) -> Result<(), AllocError> {
        if self
            .datagrams
            .arrival(number)
            .is_none_or(|arrival| arrival.key().is_none())
        {
            return Ok(());
        }
        if let Some(relayed) = self.datagrams.relayed(answer) {
            if let Some(holder) = self.other_holder(lane, relayed) {
                self.end_now(judge, holder)?;
            }
        }
        for _ in 0..ACTS_BEFORE {
            if self.act_on(judge, lane, number, answer)? {
                return Ok(());
            }
            if !self.act_on_pending(judge, lane, answer)? {
                break;
            }
        }
        self.found.mark_suspect();
        let key = self.clock.tick();
        self.commit_answer(judge, lane, number, answer, key)
    }
}
