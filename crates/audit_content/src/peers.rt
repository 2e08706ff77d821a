//! The peers that a message names.

ghost use Rattle.std.specs.Prelude.{IfSome};
ghost use Rattle.audit_stun.specs.Parts.{parts_of};
ghost use Rattle.audit_content.specs.Says.{HasAddress};

use audit_model::Addr;
use audit_stun::numbers::attribute::XOR_PEER_ADDRESS;
use audit_stun::{Message, address, message};

/// The first peer that a message names (RFC 8656, section 18.3).
pub(crate) fn peer_in(message: &Message<'_>) -> Option<Addr>
    ensures { IfSome result (λ peer. HasAddress XOR_PEER_ADDRESS (parts_of message.now) peer) }
{
    address(message.first(XOR_PEER_ADDRESS)?)
}

/// Whether a request names a peer with that IP address (RFC 8656, section 18.3).
pub fn names_peer(payload: &[u8], ip: u32) -> bool {
    match message(payload) {
        Some(request) => request.peers().any(|value| match address(value) {
            Some(peer) => peer.ip == ip,
            None => false,
        }),
        None => false,
    }
}
