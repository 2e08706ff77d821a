//! Acts on delayed responses before they leave, for data that the rules allow only then.
//!
//! If datagrams are reordered after they leave the server, data is captured before the responses
//! that leave before it.

use super::Search;
use super::leaving::ACTS_BEFORE;
use super::matching::Choice;
use crate::interfaces::Data;
use crate::judge::Judge;
use crate::numbers::AnswerNumber;
use audit_model::{Addr, Sighting};
use audit_seen::LaneNumber;
use std::alloc::AllocError;

impl Search {
    /// Chooses an arrival for data at its last moment, once delayed responses are acted on: the one
    /// that makes the allocation, then others, until the rules allow the data.
    pub(super) fn choose_early(
        &mut self,
        judge: &Judge<'_>,
        leaves: &Sighting,
        data: &Data,
    ) -> Result<Choice, AllocError> {
        let Some(lane) = self.lane_of_data(judge, leaves, data) else {
            return Ok(Choice::None);
        };
        if self.allocate_early(judge, lane, leaves)? {
            let choice = self.choose_by(judge, leaves, data)?;
            if let Choice::Acts(..) = choice {
                return Ok(choice);
            }
        }
        let mut after = None;
        for _ in 0..ACTS_BEFORE {
            let next = match self.lanes.get(lane) {
                Some(client) => client.pending_other(&self.datagrams, after),
                None => None,
            };
            let Some((sight, answer)) = next else {
                break;
            };
            after = Some(sight);
            if self.act_early(judge, lane, answer, leaves)? {
                let choice = self.choose_by(judge, leaves, data)?;
                if let Choice::Acts(..) = choice {
                    return Ok(choice);
                }
            }
        }
        Ok(Choice::None)
    }

    /// The lane whose delayed responses may leave after data that they allow.
    fn lane_of_data(
        &self,
        judge: &Judge<'_>,
        leaves: &Sighting,
        data: &Data,
    ) -> Option<LaneNumber> {
        if judge.policy().listens(leaves.from) {
            return data.lane();
        }
        match self.expected_now(judge, leaves.from) {
            Some(answer) => Some(self.datagrams.answer(answer)?.lane()),
            None => self.lanes.last_holder(leaves.from),
        }
    }

    /// The first response that makes an allocation of a relayed address, and may be acted on now.
    fn expected_now(&self, judge: &Judge<'_>, relayed: Addr) -> Option<AnswerNumber> {
        let moment = self.clock.moment();
        self.lanes
            .expected_allocation(judge, &self.datagrams, relayed, moment)
    }

    /// Makes the allocation of data, if its response is delayed and the rules allow it. Returns
    /// whether it did.
    fn allocate_early(
        &mut self,
        judge: &Judge<'_>,
        lane: LaneNumber,
        leaves: &Sighting,
    ) -> Result<bool, AllocError> {
        let answer = if judge.policy().listens(leaves.from) {
            match self.lanes.get(lane) {
                Some(client) => client.pending_allocation(&self.datagrams),
                None => None,
            }
        } else {
            self.expected_now(judge, leaves.from)
        };
        let Some(answer) = answer else {
            return Ok(false);
        };
        if let Some(relayed) = self.datagrams.relayed(answer) {
            if let Some(holder) = self.other_holder(lane, relayed) {
                self.end_now(judge, holder)?;
            }
        }
        for _ in 0..ACTS_BEFORE {
            if self.act_early(judge, lane, answer, leaves)? {
                return Ok(true);
            }
            if !self.act_on_pending(judge, lane, answer)? {
                break;
            }
        }
        Ok(false)
    }

    /// Acts on a delayed response, if the rules allow it and few acts were tried for the data.
    /// Returns whether it did.
    fn act_early(
        &mut self,
        judge: &Judge<'_>,
        lane: LaneNumber,
        answer: AnswerNumber,
        data: &Sighting,
    ) -> Result<bool, AllocError> {
        let Some(request) = self.datagrams.request(answer) else {
            return Ok(false);
        };
        let (Some(arrives), Some(leaves)) = (
            self.datagrams.arrives(judge, request),
            self.datagrams.leaves(judge, answer),
        ) else {
            return Ok(false);
        };
        if !self.count_try(data.id.iface, arrives, leaves) {
            return Ok(false);
        }
        self.act_on(judge, lane, request, answer)
    }
}
