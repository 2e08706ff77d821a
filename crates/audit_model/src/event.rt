//! The events of a certificate, and their keys.

use crate::sighting::SightId;

/// A moment, in nanoseconds since 1970, and an order among the events of one moment.
#[derive(Clone, Copy, Debug, PartialEq, Eq, PartialOrd, Ord, Hash)]
pub struct Key {
    pub moment: u64,
    pub tie: u32,
}

/// The place of an event: its key, its lane, and its number in that lane from 0.
#[derive(Clone, Copy, Debug, PartialEq, Eq, PartialOrd, Ord, Hash)]
pub struct At {
    pub key: Key,
    pub lane: u32,
    pub place: u32,
}

/// One event of a lane.
#[derive(Clone, Copy, Debug, PartialEq, Eq)]
pub enum Event {
    /// A datagram arrives at the server.
    In {
        sight: SightId,
        key: Key,
    },
    /// An act: the server sends the departure `gives` for the arrival `sight`.
    Act {
        sight: SightId,
        gives: SightId,
        key: Key,
    },
    /// A departure leaves the server.
    Out {
        sight: SightId,
        key: Key,
    },
}

impl Event {
    ghost use Rattle.std.specs.Prelude.{◌≡◌};
    ghost use Rattle.audit_model.specs.Event.{key_of, sight_of};

    pub fn key(&self) -> Key
        ensures { result ≡ key_of self.now }
    {
        match self {
            Event::In { key, .. } | Event::Act { key, .. } | Event::Out { key, .. } => *key,
        }
    }

    /// The sighting that a report names for the event: for an act its arrival.
    pub fn sight(&self) -> SightId
        ensures { result ≡ sight_of self.now }
    {
        match self {
            Event::In { sight, .. } | Event::Act { sight, .. } | Event::Out { sight, .. } => *sight,
        }
    }
}
