//! Notes new sightings.

use super::Search;
use crate::content::Content;
use crate::datagrams::{Answer, Transaction};
use crate::interfaces::Role;
use crate::judge::Judge;
use crate::kinds::Kind;
use crate::numbers::{AnswerNumber, ArrivalNumber};
use audit_model::{SightId, Sighting};
use audit_seen::LaneNumber;
use std::alloc::AllocError;

impl Search {
    /// Notes the next sighting of an interface, and its kind.
    pub(super) fn note(
        &mut self,
        judge: &Judge<'_>,
        sighting: &Sighting,
        kind: Kind,
    ) -> Result<(), AllocError> {
        if let Some(lane) = self.lane_of_owed(judge, sighting) {
            return self.interfaces.note(sighting.id.iface, Role::Owed(lane));
        }
        let role = match kind {
            Kind::Arrival {
                lane,
                is_sent_on,
                asks,
            } => Role::Arrival(self.note_arrival(sighting.id, lane, is_sent_on, asks)?),
            Kind::Answer(transaction, content) => {
                Role::Answer(self.note_answer(judge, sighting, content, &transaction)?)
            }
            Kind::Data(data) => Role::Data(data),
        };
        self.interfaces.note(sighting.id.iface, role)
    }

    /// Notes an arrival: the client's lane, whether it is a Send indication, and the digest of its
    /// cause.
    pub(super) fn note_arrival(
        &mut self,
        sight: SightId,
        lane: Option<LaneNumber>,
        is_sent_on: bool,
        asks: Option<u64>,
    ) -> Result<ArrivalNumber, AllocError> {
        if is_sent_on {
            self.note_sending(lane);
        }
        self.datagrams.add_arrival(sight, lane, asks)
    }

    /// Notes that a client sends data in indications.
    fn note_sending(&mut self, lane: Option<LaneNumber>) {
        if let Some(lane) = lane {
            if let Some(client) = self.lanes.get_mut(lane) {
                client.note_sending();
            }
        }
    }

    /// Notes a response, with the last request of its transaction that came before it on its
    /// interface, if that has no other response.
    fn note_answer(
        &mut self,
        judge: &Judge<'_>,
        sighting: &Sighting,
        content: Content,
        transaction: &Transaction,
    ) -> Result<AnswerNumber, AllocError> {
        let first = judge.first_moment(sighting);
        let request = self.datagrams.request_before(judge, sighting, transaction);
        let before = match self.lanes.get(transaction.lane()) {
            Some(client) => client.last().answer(),
            None => None,
        };
        let answer = Answer::new(sighting.id, content, transaction.lane(), before).to(request);
        let until = judge.last_moment(sighting);
        let number = self.datagrams.add_answer(answer, transaction, until)?;
        if let Some(client) = self.lanes.get_mut(transaction.lane()) {
            let deleted = client.last_mut().note_answer(number, content);
            if let Some(allocation) = deleted {
                self.datagrams.note_deletion(allocation, first);
            }
        }
        if let Content::Allocated(relayed) = content {
            self.lanes.expect_allocation(relayed, first, number)?;
        }
        Ok(number)
    }
}
