//! Causes: what an arriving datagram requests. A departure is matched to its arrival by the cause.

use audit_content::{FromClient, parse_from_client};
use audit_model::{Addr, Sighting};
use audit_seen::LaneNumber;

/// What an arrival requests. Data is represented by its digest: if two have the same digest, the
/// judge distinguishes them.
#[derive(Clone, Copy, Debug, PartialEq, Eq)]
pub enum Cause {
    /// A request with this transaction id.
    Request {
        lane: LaneNumber,
        id: [u8; 12],
    },
    /// A Send indication (RFC 8656, section 11).
    Send {
        lane: LaneNumber,
        peer: Addr,
        digest: u64,
    },
    /// ChannelData to the server (RFC 8656, section 12).
    Channel {
        lane: LaneNumber,
        number: u16,
        digest: u64,
    },
    /// A peer's datagram to a relayed address.
    Peer {
        relayed: Addr,
        peer: Addr,
        digest: u64,
    },
}

impl Cause {
    /// A digest of the cause, by which equal causes are found. If different causes have the same
    /// digest, the judge distinguishes them.
    pub fn digest(&self) -> u64 {
        let [first, second, third] = self.words();
        let digest = mixed(mixed(mixed(0, first), second), third);
        // A table uses the last bits; the first bits depend on most of the input.
        digest ^ digest >> 32
    }

    /// All fields, and which of the four variants it is.
    fn words(&self) -> [u64; 3] {
        match *self {
            Cause::Request { lane, id } => {
                let [a, b, c, d, e, f, g, h, i, j, k, l] = id;
                let first = u64::from_le_bytes([a, b, c, d, e, f, g, h]);
                let last = u32::from_le_bytes([i, j, k, l]);
                [lane.value() as u64, first, last as u64]
            }
            Cause::Send { lane, peer, digest } => {
                [1 << 48 | lane.value() as u64, word_of(peer), digest]
            }
            Cause::Channel {
                lane,
                number,
                digest,
            } => [2 << 48 | lane.value() as u64, number as u64, digest],
            Cause::Peer {
                relayed,
                peer,
                digest,
            } => [3 << 48 | word_of(relayed), word_of(peer), digest],
        }
    }
}

/// The 48 bits of an address, in a word.
fn word_of(address: Addr) -> u64 {
    (address.ip as u64) << 16 | address.port as u64
}

/// A digest by which equal data is found. It is fast and not collision-resistant: each match is
/// judged, and a collision costs as many tries as equal data would.
pub fn digest_of(data: &[u8]) -> u64 {
    let (words, rest) = data.as_chunks::<8>();
    let mut digest = data.len() as u64;
    for word in words {
        digest = mixed(digest, u64::from_le_bytes(*word));
    }
    for byte in rest {
        digest = mixed(digest, *byte as u64);
    }
    digest
}

/// Mixes a word into a digest. The factor is odd and its bits look random, so that each bit of a
/// word changes many.
fn mixed(digest: u64, word: u64) -> u64 {
    (digest.rotate_left(5) ^ word).wrapping_mul(0x517c_c1b7_2722_0a95)
}

/// What a client's datagram requests, if the server sends anything for it.
pub fn cause_of_client(lane: LaneNumber, payload: &[u8]) -> Option<Cause> {
    match parse_from_client(payload)? {
        FromClient::Request { id, .. } => Some(Cause::Request { lane, id }),
        FromClient::Send { peer, data } => Some(Cause::Send {
            lane,
            peer,
            digest: digest_of(data),
        }),
        FromClient::Channel { number, data } => Some(Cause::Channel {
            lane,
            number,
            digest: digest_of(data),
        }),
    }
}

/// What a peer's datagram requests.
pub fn cause_of_peer(arrival: &Sighting) -> Cause {
    Cause::Peer {
        relayed: arrival.to,
        peer: arrival.from,
        digest: digest_of(arrival.payload.as_slice()),
    }
}
