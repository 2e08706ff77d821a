//! The request or the data in a datagram.

use crate::numbers::LaneNumber;
use audit_content::{Success, ToClient};
use audit_model::{Addr, Sighting};
use std::hash::{DefaultHasher, Hasher};

/// The key of arrivals that are alike for a departure. Data is in the key by its digest; different
/// data of one digest is told apart when an act is judged.
#[derive(Clone, Copy, Debug, PartialEq, Eq, PartialOrd, Ord)]
pub struct PoolKey {
    digest: u64,
    kind: ArrivalKind,
}

/// The kind of arrivals of one digest.
#[derive(Clone, Copy, Debug, PartialEq, Eq, PartialOrd, Ord)]
pub enum ArrivalKind {
    /// A request with this method and transaction id.
    Request {
        lane: LaneNumber,
        method: u16,
        id: [u8; 12],
    },
    /// A Send indication (RFC 8656, section 11).
    Send {
        lane: LaneNumber,
        peer: Addr,
    },
    /// ChannelData to the server (RFC 8656, section 12).
    Channel {
        lane: LaneNumber,
        number: u16,
    },
    /// A peer's datagram to a relayed address.
    Peer {
        relayed: Addr,
        peer: Addr,
    },
}

/// The content of a departure.
#[derive(Clone, Copy, Debug, PartialEq, Eq)]
pub enum Content {
    /// An error response.
    Error,
    /// An Allocate success response, with its lifetime in seconds.
    Allocated {
        relayed: Addr,
        seconds: u32,
    },
    /// A Refresh success response.
    Refreshed {
        seconds: u32,
    },
    /// A Refresh success response with LIFETIME 0 (RFC 8656, section 8.2).
    Deleted,
    /// A CreatePermission success response.
    Permitted,
    /// A ChannelBind success response.
    Bound,
    /// Another success response.
    Answered,
    /// A Data indication (RFC 8656, section 11).
    Data {
        peer: Addr,
        digest: u64,
    },
    /// ChannelData to the client (RFC 8656, section 12).
    Channel {
        number: u16,
        digest: u64,
    },
    /// A datagram from a relayed address to a peer.
    Relayed {
        relayed: Addr,
        peer: Addr,
        digest: u64,
    },
    /// Bytes that can't be parsed.
    Other,
}

impl PoolKey {
    ghost use Rattle.std.specs.Prelude.{◌≡◌};

    /// A request of a lane.
    pub(crate) fn request(lane: LaneNumber, method: u16, id: [u8; 12]) -> PoolKey {
        let [a, b, c, d, e, f, g, h, _, _, _, _] = id;
        PoolKey {
            digest: u64::from_be_bytes([a, b, c, d, e, f, g, h]),
            kind: ArrivalKind::Request { lane, method, id },
        }
    }

    /// A Send indication of a lane.
    pub fn send(lane: LaneNumber, peer: Addr, digest: u64) -> PoolKey {
        PoolKey {
            digest,
            kind: ArrivalKind::Send { lane, peer },
        }
    }

    /// ChannelData of a lane.
    pub fn channel(lane: LaneNumber, number: u16, digest: u64) -> PoolKey {
        PoolKey {
            digest,
            kind: ArrivalKind::Channel { lane, number },
        }
    }

    /// A peer's datagram to a relayed address.
    pub fn peer(relayed: Addr, peer: Addr, digest: u64) -> PoolKey {
        PoolKey {
            digest,
            kind: ArrivalKind::Peer { relayed, peer },
        }
    }

    /// The digest of data; of a request, the first bytes of its transaction id.
    pub fn digest(&self) -> u64
        ensures { result ≡ self.now.digest }
    {
        self.digest
    }

    pub fn kind(&self) -> ArrivalKind
        ensures { result ≡ self.now.kind }
    {
        self.kind
    }

    pub(crate) fn is_request(&self) -> bool {
        matches!(self.kind, ArrivalKind::Request { .. })
    }
}

impl Content {
    /// Whether it changes the client's leases: the others leave the table unchanged.
    pub fn is_change(&self) -> bool {
        matches!(
            self,
            Content::Allocated { .. }
                | Content::Refreshed { .. }
                | Content::Deleted
                | Content::Permitted
                | Content::Bound
        )
    }
}

/// A digest of data, to find equal data. It is SipHash, because arrivals of one digest count as
/// alike.
pub(crate) fn digest_of(data: &[u8]) -> u64 {
    let mut hasher = DefaultHasher::new();
    hasher.write(data);
    hasher.finish()
}

/// The key of a client's datagram, if the server may answer or relay it.
pub(crate) fn key_from_client(lane: LaneNumber, payload: &[u8]) -> Option<PoolKey> {
    match audit_content::parse_from_client(payload)? {
        audit_content::FromClient::Request { method, id } => Some(PoolKey::request(
            lane, method, id,
        )),
        audit_content::FromClient::Send { peer, data } => {
            Some(PoolKey::send(lane, peer, digest_of(data)))
        }
        audit_content::FromClient::Channel { number, data } => {
            Some(PoolKey::channel(lane, number, digest_of(data)))
        }
    }
}

/// The key of a peer's datagram.
pub(crate) fn key_from_peer(arrives: &Sighting) -> PoolKey {
    let digest = digest_of(arrives.payload.as_slice());
    PoolKey::peer(arrives.to, arrives.from, digest)
}

/// The channel that a ChannelBind requests, and its peer.
pub fn requested_channel(payload: &[u8]) -> Option<(u16, Addr)> {
    let channel = audit_content::requested_channel(payload)?;
    Some((channel.number(), channel.peer()))
}

/// The content of a departure from a relayed address.
pub(crate) fn content_to_peer(leaves: &Sighting) -> Content {
    Content::Relayed {
        relayed: leaves.from,
        peer: leaves.to,
        digest: digest_of(leaves.payload.as_slice()),
    }
}

/// The content of a departure to a client; of a response also the key of its requests.
pub(crate) fn content_to_client(lane: LaneNumber, payload: &[u8]) -> (Content, Option<PoolKey>) {
    match audit_content::parse_to_client(payload) {
        Some(
            ToClient::Success {
                method,
                id,
                success,
            },
        ) => {
            let key = PoolKey::request(lane, method, id);
            (content_of_success(success), Some(key))
        }
        Some(ToClient::Error { method, id, .. }) => {
            (Content::Error, Some(PoolKey::request(lane, method, id)))
        }
        Some(ToClient::Data { peer, data }) => {
            let digest = digest_of(data);
            (Content::Data { peer, digest }, None)
        }
        Some(ToClient::Channel { number, data }) => {
            let digest = digest_of(data);
            (Content::Channel { number, digest }, None)
        }
        None => (Content::Other, None),
    }
}

fn content_of_success(success: Success) -> Content {
    match success {
        Success::Allocated { relayed, seconds } => Content::Allocated {
            relayed,
            seconds: seconds.unwrap_or(0),
        },
        Success::Refreshed { seconds } => Content::Refreshed {
            seconds: seconds.unwrap_or(0),
        },
        Success::Deleted => Content::Deleted,
        Success::Permitted => Content::Permitted,
        Success::Bound => Content::Bound,
        Success::Other => Content::Answered,
    }
}
