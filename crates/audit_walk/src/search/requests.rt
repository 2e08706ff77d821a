//! Places arrivals.
//!
//! A request is acted on when it arrives, so that its lease is there for the data after it. Some
//! are acted on when their responses leave: a Refresh that deletes the allocation, a request whose
//! response the rules don't allow earlier, and those whose responses leave after such a one.

use super::Search;
use crate::content::Content;
use crate::datagrams::{Answer, Transaction};
use crate::judge::Judge;
use crate::numbers::{AnswerNumber, ArrivalNumber};
use audit_content::{FromClient, parse_from_client};
use audit_model::Sighting;
use audit_seen::LaneNumber;
use std::alloc::AllocError;

impl Search {
    /// Sets the key of an arrival, and acts on it if that is best done at once.
    pub(super) fn place_arrival(
        &mut self,
        judge: &Judge<'_>,
        number: ArrivalNumber,
        sighting: &Sighting,
    ) -> Result<(), AllocError> {
        let key = self.clock.tick();
        // The next key is for an act at the arrival that is only found later.
        let _spare = self.clock.tick();
        if key.moment > judge.last_moment(sighting) {
            self.found.mark_suspect();
        }
        let until = judge.latest_answer(key.moment);
        self.datagrams.place(number, key, until)?;
        self.interfaces.wake(&self.clock, number)?;
        self.place_with_lane(judge, number, sighting)
    }

    /// Notes an arrival that has a key as the last one of its client, and acts on it if that is
    /// best done at once.
    pub(super) fn place_with_lane(
        &mut self,
        judge: &Judge<'_>,
        number: ArrivalNumber,
        sighting: &Sighting,
    ) -> Result<(), AllocError> {
        match self.datagrams.lane(number) {
            Some(lane) => self.place_of_client(judge, lane, number, sighting),
            None => {
                self.lanes.note_received(sighting.to, number);
                Ok(())
            }
        }
    }

    fn place_of_client(
        &mut self,
        judge: &Judge<'_>,
        lane: LaneNumber,
        number: ArrivalNumber,
        sighting: &Sighting,
    ) -> Result<(), AllocError> {
        let transaction = transaction_of(lane, sighting);
        if let Some(client) = self.lanes.get_mut(lane) {
            if transaction.is_some() {
                client.last_mut().note_request(number);
            } else {
                client.last_mut().note_sent(number);
            }
        }
        if let Some(transaction) = transaction {
            return self.act_on_request(judge, number, &transaction);
        }
        self.datagrams.note_sent(number);
        Ok(())
    }

    /// Acts on a request that has a key, if its response is captured and may be sent at once.
    fn act_on_request(
        &mut self,
        judge: &Judge<'_>,
        number: ArrivalNumber,
        transaction: &Transaction,
    ) -> Result<(), AllocError> {
        let lane = transaction.lane();
        let noted = self.datagrams.noted_answer(number);
        let answer = match noted {
            Some(_) => noted,
            None => self.datagrams.reserve(judge, number, transaction),
        };
        let Some(answer) = answer else {
            return Ok(());
        };
        let Some(known) = self.datagrams.answer(answer).copied() else {
            return Ok(());
        };
        let is_amid_changes = noted.is_none() && self.datagrams.is_behind_change(answer);
        if !is_amid_changes && !self.is_kept_back(judge, lane, answer, &known) {
            if self.act_on(judge, lane, number, answer)? {
                return Ok(());
            }
        }
        match self.lanes.get_mut(lane) {
            Some(client) => client.keep_back(answer, &known),
            None => Ok(()),
        }
    }

    /// Whether a response is best acted on when it leaves: the walk is late; a response before it
    /// is delayed; it deletes an allocation; or it makes one, and another client has the address or
    /// must have it before, or a response near it contradicts that. A response that there is no
    /// allocation is never delayed.
    fn is_kept_back(
        &self,
        judge: &Judge<'_>,
        lane: LaneNumber,
        number: AnswerNumber,
        answer: &Answer,
    ) -> bool {
        let Some(client) = self.lanes.get(lane) else {
            return false;
        };
        if answer.content() == Content::NoAllocation {
            return false;
        }
        if self.is_late || client.has_pending_before(answer.sight()) {
            return true;
        }
        match answer.content() {
            Content::Deleted => {
                client.has_allocation() || self.datagrams.is_behind_another(number)
            }
            Content::Allocated(relayed) => {
                self.datagrams.is_behind_another(number)
                    || self.datagrams.is_before_refusal(number)
                    || self.other_holder(lane, relayed).is_some()
                    || self.has_to_follow(judge, answer)
            }
            _ => false,
        }
    }
}

/// The transaction of a client's datagram, if it is a request.
fn transaction_of(lane: LaneNumber, arrives: &Sighting) -> Option<Transaction> {
    match parse_from_client(arrives.payload.as_slice())? {
        FromClient::Request { id, .. } => Some(Transaction::new(lane, id)),
        FromClient::Send { .. } | FromClient::Channel { .. } => None,
    }
}
