//! Lets the success response to a deletion wait for data that may be relayed before the deletion.

use super::Search;
use crate::content::Content;
use crate::datagrams::Answer;
use crate::interfaces::Role;
use crate::judge::Judge;
use crate::numbers::ArrivalNumber;
use audit_content::{FromClient, parse_from_client};
use audit_model::{Addr, Sighting};
use audit_seen::LaneNumber;

/// How many sightings of all interfaces are looked at for data.
const LOOKED_AT: usize = 512;

/// How many sightings of the response's interface are looked at for other responses.
const RESPONSES: usize = 16;

/// Data that may be relayed before a deletion.
#[derive(Clone, Copy)]
struct Sought {
    lane: LaneNumber,
    /// The relayed address of the allocation.
    relayed: Addr,
    /// The last moment at which a window of the data may begin.
    until: u64,
    /// How many sightings of each interface are looked at.
    count: usize,
}

impl Search {
    /// The last data of an allocation that still arrives on another interface before the response
    /// must leave that deletes the allocation. The server may relay it before the deletion.
    pub(super) fn data_before(
        &mut self,
        judge: &Judge<'_>,
        lane: LaneNumber,
        answer: &Answer,
        leaves: &Sighting,
    ) -> Option<ArrivalNumber> {
        let iface = leaves.id.iface;
        if answer.content() != Content::Deleted || !self.interfaces.may_wait_for_data(iface) {
            return None;
        }
        let relayed = self.lanes.get(lane)?.relayed()?;
        self.limit_data_wait(judge, leaves);
        if !self.clock.has_time() {
            return None;
        }
        let sought = Sought {
            lane,
            relayed,
            until: self.data_until(judge, relayed, leaves),
            count: LOOKED_AT / self.interfaces.unplaced().saturating_add(1),
        };
        for other in 0..judge.intake().interfaces() {
            if other != iface {
                let data = self.last_data(judge, other, &sought);
                if data.is_some() {
                    return data;
                }
            }
        }
        None
    }

    /// The last moment at which data arrives for an allocation before the response must leave that
    /// deletes it: what arrives after a new allocation of the relayed address is for that one.
    fn data_until(&self, judge: &Judge<'_>, relayed: Addr, leaves: &Sighting) -> u64 {
        let latest = self.clock.latest();
        let from = judge.first_moment(leaves);
        match self.lanes.next_allocation(relayed, from) {
            Some(moment) => latest.min(moment),
            None => latest,
        }
    }

    /// Lets the current response wait for data only as long as no other departure has to leave.
    fn limit_data_wait(&mut self, judge: &Judge<'_>, leaves: &Sighting) {
        let iface = leaves.id.iface;
        let others = self.interfaces.others_wait_until(iface);
        let responses = self.responses_until(judge, iface);
        let until = judge.data_wait_end(leaves).min(others).min(responses);
        self.clock.limit(until);
    }

    /// The moment until which the next responses of an interface may leave, by their requests.
    fn responses_until(&self, judge: &Judge<'_>, iface: u32) -> u64 {
        let mut until = u64::MAX;
        for count in 0..RESPONSES {
            let answer = match self.interfaces.role_after(iface, count) {
                Some(Role::Answer(answer)) => answer,
                Some(_) => continue,
                None => break,
            };
            let came = self
                .datagrams
                .request(answer)
                .and_then(|request| self.datagrams.arrival(request))
                .and_then(|request| request.key());
            if let Some(came) = came {
                until = until.min(judge.latest_answer(came.moment));
            }
        }
        until
    }

    /// The last of the sought data among the next sightings of an interface.
    fn last_data(&self, judge: &Judge<'_>, iface: u32, sought: &Sought) -> Option<ArrivalNumber> {
        let mut last = None;
        for count in 0..sought.count {
            let number = match self.interfaces.role_after(iface, count) {
                Some(Role::Arrival(number)) => number,
                Some(_) => continue,
                None => break,
            };
            let Some(arrives) = self.datagrams.arrives(judge, number) else {
                break;
            };
            if judge.first_moment(arrives) > sought.until {
                break;
            }
            let is_sought = match self.datagrams.lane(number) {
                Some(lane) => lane == sought.lane && is_data(arrives.payload.as_slice()),
                None => arrives.to == sought.relayed,
            };
            if is_sought {
                last = Some(number);
            }
        }
        last
    }
}

/// Whether a client's datagram is a Send indication or ChannelData.
fn is_data(payload: &[u8]) -> bool {
    matches!(
        parse_from_client(payload),
        Some(FromClient::Send { .. } | FromClient::Channel { .. })
    )
}
