//! The content of a sighting, before pools have numbers.

use crate::content::{
    Content, PoolKey, content_to_client, content_to_peer, key_from_client, key_from_peer,
};
use crate::lanes::Lanes;
use crate::numbers::{LaneNumber, PoolNumber};
use crate::seen::Says;
use audit_model::{Policy, Side, Sighting};

/// The content of a sighting, while pools have no numbers yet.
#[derive(Clone, Copy)]
pub(crate) struct Reading {
    says: Says,
    lane: Option<LaneNumber>,
    key: Option<PoolKey>,
}

impl Reading {
    ghost use Rattle.std.specs.Prelude.{◌≡◌};

    pub(crate) fn says(&self) -> Says
        ensures { result ≡ self.now.says }
    {
        self.says
    }

    /// The lane of a datagram between a client and its listen address.
    pub(crate) fn lane(&self) -> Option<LaneNumber>
        ensures { result ≡ self.now.lane }
    {
        self.lane
    }

    /// Its key, or the key of the requests that it answers.
    pub(crate) fn key(&self) -> Option<PoolKey>
        ensures { result ≡ self.now.key }
    {
        self.key
    }
}

/// The pool of each sighting until all keys are in order.
const NO_POOL: PoolNumber = PoolNumber::FIRST;

/// The content of a sighting.
pub(crate) fn read_sighting(policy: &Policy, sighting: &Sighting, lanes: &Lanes) -> Reading {
    match sighting.side {
        Side::Arrives if !policy.listens(sighting.to) => Reading {
            says: Says::Received(NO_POOL),
            lane: None,
            key: Some(key_from_peer(sighting)),
        },
        Side::Arrives => match lanes.get(sighting.from, sighting.to) {
            Some(lane) => read_from_client(lane, sighting),
            None => Reading {
                says: Says::Nothing,
                lane: None,
                key: None,
            },
        },
        Side::Leaves if !policy.listens(sighting.from) => Reading {
            says: Says::Departure(content_to_peer(sighting), None),
            lane: None,
            key: None,
        },
        Side::Leaves => match lanes.get(sighting.to, sighting.from) {
            Some(lane) => read_to_client(lane, sighting),
            None => Reading {
                says: Says::Departure(Content::Other, None),
                lane: None,
                key: None,
            },
        },
    }
}

/// The content of a client's datagram.
fn read_from_client(lane: LaneNumber, sighting: &Sighting) -> Reading {
    let key = key_from_client(lane, sighting.payload.as_slice());
    let says = match &key {
        Some(key) if key.is_request() => Says::Request(NO_POOL),
        Some(_) => Says::Sent(NO_POOL),
        None => Says::Nothing,
    };
    Reading {
        says,
        lane: Some(lane),
        key,
    }
}

/// The content of a datagram to a client.
fn read_to_client(lane: LaneNumber, sighting: &Sighting) -> Reading {
    let (content, key) = content_to_client(lane, sighting.payload.as_slice());
    Reading {
        says: Says::Departure(content, key.map(|_| NO_POOL)),
        lane: Some(lane),
        key,
    }
}
