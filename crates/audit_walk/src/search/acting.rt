//! Writes acts.

use super::Search;
use crate::content::Content;
use crate::judge::Judge;
use crate::lanes::ACTS_BEFORE;
use crate::numbers::{AnswerNumber, ArrivalNumber};
use audit_model::{Event, Key, SightId};
use audit_seen::LaneNumber;
use std::alloc::AllocError;

impl Search {
    /// Acts on a request now, if the rules allow it, and returns whether it did. A deletion is done
    /// in any case: the deleted allocation is kept for data that was relayed before.
    pub(super) fn act_on(
        &mut self,
        judge: &Judge<'_>,
        lane: LaneNumber,
        number: ArrivalNumber,
        answer: AnswerNumber,
    ) -> Result<bool, AllocError> {
        let (Some(arrives), Some(leaves)) = (
            self.datagrams.arrives(judge, number),
            self.datagrams.leaves(judge, answer),
        ) else {
            return Ok(false);
        };
        let is_deletion = self.datagrams.content(answer) == Some(Content::Deleted);
        let Some(client) = self.lanes.get_mut(lane) else {
            return Ok(false);
        };
        if is_deletion && client.has_allocation() {
            let before = self.clock.reserve(ACTS_BEFORE);
            let mut table = client.delete(self.alloc, before)?;
            let key = self.clock.tick();
            if !judge.answers(lane, &mut table, arrives, leaves, key)? {
                self.found.mark_suspect();
            }
            self.commit_answer(judge, lane, number, answer, key)?;
            return Ok(true);
        }
        let key = self.clock.tick();
        if !client.answer(judge, arrives, leaves, key)? {
            return Ok(false);
        }
        self.commit_answer(judge, lane, number, answer, key)?;
        Ok(true)
    }

    /// Acts on the first delayed response of a lane, except this one, that makes or deletes an
    /// allocation, if the rules allow it. Returns whether it did.
    pub(super) fn act_on_pending(
        &mut self,
        judge: &Judge<'_>,
        lane: LaneNumber,
        but: AnswerNumber,
    ) -> Result<bool, AllocError> {
        let other = match self.lanes.get(lane) {
            Some(client) => client.pending_change(&self.datagrams, but),
            None => None,
        };
        match other {
            Some(other) => self.act_on_response(judge, lane, other),
            None => Ok(false),
        }
    }

    /// Deletes the allocation of a lane, if the success response to the Refresh hasn't left yet.
    pub(super) fn end_now(
        &mut self,
        judge: &Judge<'_>,
        lane: LaneNumber,
    ) -> Result<(), AllocError> {
        let deletion = match self.lanes.get(lane) {
            Some(client) => client.pending_deletion(),
            None => None,
        };
        if let Some(deletion) = deletion {
            let _did = self.act_on_response(judge, lane, deletion)?;
        }
        Ok(())
    }

    /// Acts on a response now, if its request is known and the rules allow it. Returns whether it
    /// did.
    fn act_on_response(
        &mut self,
        judge: &Judge<'_>,
        lane: LaneNumber,
        answer: AnswerNumber,
    ) -> Result<bool, AllocError> {
        match self.datagrams.request(answer) {
            Some(number) => self.act_on(judge, lane, number, answer),
            None => Ok(false),
        }
    }

    /// Writes the act of a request and its response, and notes the response's content.
    pub(super) fn commit_answer(
        &mut self,
        judge: &Judge<'_>,
        lane: LaneNumber,
        number: ArrivalNumber,
        answer: AnswerNumber,
        key: Key,
    ) -> Result<(), AllocError> {
        let Some(known) = self.datagrams.act_answer(answer) else {
            return Ok(());
        };
        self.write_act(judge, lane, number, known.sight(), key)?;
        if let Some(relayed) = known.relayed() {
            if self.lanes.may_be_held(lane, relayed, self.clock.moment()) {
                self.found.mark_suspect();
            }
            self.lanes.note_holder(lane, relayed)?;
            if let Some(leaves) = judge.sighting(known.sight()) {
                let first = judge.first_moment(leaves);
                self.lanes.forget_allocation(relayed, first, answer);
            }
        }
        let arrives = self.datagrams.arrives(judge, number);
        match self.lanes.get_mut(lane) {
            Some(client) => client.note_given(answer, &known, arrives),
            None => Ok(()),
        }
    }

    /// Writes the act of an arrival and a departure, after the arrival's own event if that isn't
    /// written yet.
    pub(super) fn write_act(
        &mut self,
        judge: &Judge<'_>,
        lane: LaneNumber,
        number: ArrivalNumber,
        gives: SightId,
        key: Key,
    ) -> Result<(), AllocError> {
        if !self.datagrams.may_act_at(judge, key.moment, number) {
            self.found.mark_suspect();
        }
        let Some(sight) = self.datagrams.act(number) else {
            return Ok(());
        };
        if let Some(came) = self.datagrams.emit(number) {
            self.found.push(lane, Event::In { sight, key: came })?;
        }
        self.found.push(lane, Event::Act { sight, gives, key })
    }
}
