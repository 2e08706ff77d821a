//! An act that violates a rule, with the state of the lane before it.

use crate::case::Case;
use audit_model::{Addr, Sighting};
use audit_stun::numbers::attribute::{CHANNEL_NUMBER, DATA, XOR_PEER_ADDRESS};
use audit_stun::{Class, Message, address, channel_data, message};
use explain_state::LaneAt;

/// An act, and the lane before it.
#[derive(Clone, Copy)]
pub struct Scene<'s> {
    pub case: Case<'s>,
    pub lane: &'s LaneAt<'s>,
    pub arrives: &'s Sighting,
    pub leaves: &'s Sighting,
    /// The moment of the act, in nanoseconds since 1970.
    pub moment: u64,
}

/// The direction of an act.
#[derive(Clone, Copy, Debug, PartialEq, Eq)]
pub enum Way {
    /// A request of the client and its response.
    Response,
    /// From the client to a peer.
    Up,
    /// From a peer to the client.
    Down,
}

/// The peer that a message names first.
fn named_peer(told: &Message<'_>) -> Option<Addr> {
    address(told.first(XOR_PEER_ADDRESS)?)
}

/// The channel that a message names.
fn named_channel(told: &Message<'_>) -> Option<u16> {
    let [high, low, ..] = told.first(CHANNEL_NUMBER)? else {
        return None;
    };
    Some(u16::from_be_bytes([*high, *low]))
}

impl<'s> Scene<'s> {
    /// The direction of the act.
    pub fn way(&self) -> Way {
        let client = self.lane.input().client();
        let comes_from_client = self.arrives.from == client
            && self.arrives.to == self.lane.input().listen();
        let goes_to_client = self.leaves.to == client
            && self.leaves.from == self.lane.input().listen();
        match (comes_from_client, goes_to_client) {
            (true, false) => Way::Up,
            (false, true) => Way::Down,
            (true, true) | (false, false) => Way::Response,
        }
    }

    /// The message that arrived.
    pub fn message_in(&self) -> Option<Message<'s>> {
        message(self.arrives.payload.as_slice())
    }

    /// The message that left.
    pub fn message_out(&self) -> Option<Message<'s>> {
        message(self.leaves.payload.as_slice())
    }

    /// Whether what arrived is a request.
    pub fn is_request(&self) -> bool {
        match self.message_in() {
            Some(asked) => asked.class() == Class::Request,
            None => false,
        }
    }

    /// The peer of the act: the other end of the datagram at the relayed address, or the peer that
    /// a request names.
    pub fn peer(&self) -> Option<Addr> {
        match self.way() {
            Way::Up => Some(self.leaves.to),
            Way::Down => Some(self.arrives.from),
            Way::Response => named_peer(&self.message_in()?),
        }
    }

    /// The peer that the message on the client's side names.
    pub fn named_peer(&self) -> Option<Addr> {
        match self.way() {
            Way::Up | Way::Response => named_peer(&self.message_in()?),
            Way::Down => named_peer(&self.message_out()?),
        }
    }

    /// The channel of the act.
    pub fn channel(&self) -> Option<u16> {
        match self.way() {
            Way::Up => {
                let (number, _, _) = channel_data(self.arrives.payload.as_slice())?;
                Some(number)
            }
            Way::Down => {
                let (number, _, _) = channel_data(self.leaves.payload.as_slice())?;
                Some(number)
            }
            Way::Response => named_channel(&self.message_in()?),
        }
    }

    /// The data on the client's side.
    pub fn clients_data(&self) -> Option<&'s [u8]> {
        let payload = match self.way() {
            Way::Up | Way::Response => self.arrives.payload.as_slice(),
            Way::Down => self.leaves.payload.as_slice(),
        };
        if let Some((_, bytes, _)) = channel_data(payload) {
            return Some(bytes);
        }
        message(payload)?.first(DATA)
    }
}
