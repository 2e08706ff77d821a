//! Classifies sightings, each alone.

use crate::causes::{Cause, cause_of_client, cause_of_peer, digest_of};
use crate::content::{Content, answer_of};
use crate::datagrams::Transaction;
use crate::interfaces::Data;
use crate::judge::Judge;
use audit_content::{ToClient, parse_to_client};
use audit_model::{Side, Sighting};
use audit_seen::LaneNumber;

/// The kind of a sighting, as far as it is known without any other sighting.
#[derive(Clone, Copy, Debug)]
pub enum Kind {
    /// A datagram that arrives: the client's lane, whether it is a Send indication, and the digest
    /// of its cause.
    Arrival {
        lane: Option<LaneNumber>,
        is_sent_on: bool,
        asks: Option<u64>,
    },
    /// A success or error response.
    Answer(Transaction, Content),
    /// Relayed data that leaves.
    Data(Data),
}

/// Classifies a sighting. It reads the payload once.
pub fn kind_of(judge: &Judge<'_>, sighting: &Sighting) -> Kind {
    match sighting.side {
        Side::Arrives => arriving_kind(judge, sighting),
        Side::Leaves => leaving_kind(judge, sighting),
    }
}

fn arriving_kind(judge: &Judge<'_>, sighting: &Sighting) -> Kind {
    if !judge.policy().listens(sighting.to) {
        let asks = Some(cause_of_peer(sighting).digest());
        return Kind::Arrival {
            lane: None,
            is_sent_on: false,
            asks,
        };
    }
    let lane = judge.lane_of(sighting.from, sighting.to);
    let cause = match lane {
        Some(lane) => cause_of_client(lane, sighting.payload.as_slice()),
        None => None,
    };
    let asks = match cause {
        Some(cause) => Some(cause.digest()),
        None => None,
    };
    Kind::Arrival {
        lane,
        is_sent_on: matches!(cause, Some(Cause::Send { .. })),
        asks,
    }
}

fn leaving_kind(judge: &Judge<'_>, sighting: &Sighting) -> Kind {
    let payload = sighting.payload.as_slice();
    if !judge.policy().listens(sighting.from) {
        return Kind::Data(Data::new(None, digest_of(payload)));
    }
    let lane = judge.lane_of(sighting.to, sighting.from);
    let Some(given) = parse_to_client(payload) else {
        return Kind::Data(Data::new(lane, 0));
    };
    if let (Some(lane), Some(answer)) = (lane, answer_of(&given)) {
        let (id, content) = answer;
        return Kind::Answer(Transaction::new(lane, id), content);
    }
    let digest = match given {
        ToClient::Data { data, .. } | ToClient::Channel { data, .. } => digest_of(data),
        ToClient::Success { .. } | ToClient::Error { .. } => 0,
    };
    Kind::Data(Data::new(lane, digest))
}
