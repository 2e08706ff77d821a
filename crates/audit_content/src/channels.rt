//! The channel that a ChannelBind requests.

ghost use Rattle.std.specs.Prelude.{◌≡◌, IfSome};
ghost use Rattle.audit_stun.specs.declared.numbers.method.TheConstants as methods;
ghost use Rattle.audit_stun.specs.Parts.{parts_of};
ghost use Rattle.audit_stun.specs.Counted.{first_of};
ghost use Rattle.audit_content.specs.Says.{HasChannel, number_in};

use crate::peers::peer_in;
use audit_model::Addr;
use audit_stun::numbers::attribute::CHANNEL_NUMBER;
use audit_stun::numbers::method;
use audit_stun::{Message, message};

/// A channel's number, with its peer (RFC 8656, section 12).
#[derive(Clone, Copy, Debug)]
pub struct Channel {
    number: u16,
    peer: Addr,
}

impl Channel {
    ghost use Rattle.std.specs.Prelude.{◌≡◌};

    /// Its number.
    pub fn number(&self) -> u16
        ensures { result ≡ self.now.number }
    {
        self.number
    }

    /// The peer that it is bound to.
    pub fn peer(&self) -> Addr
        ensures { result ≡ self.now.peer }
    {
        self.peer
    }
}

/// The channel that a ChannelBind requests.
pub fn requested_channel(payload: &[u8]) -> Option<Channel>
    ensures method { IfSome result (λ _. (parts_of payload.now).method ≡ methods.CHANNEL_BIND) }
    ensures named { IfSome result (λ channel. HasChannel (parts_of payload.now) channel) }
{
    let request = message(payload)?;
    if request.method() == method::CHANNEL_BIND {
        channel_in(&request)
    } else {
        None
    }
}

/// The channel that a message of any method names.
pub fn named_channel(payload: &[u8]) -> Option<Channel>
    ensures { IfSome result (λ channel. HasChannel (parts_of payload.now) channel) }
{
    channel_in(&message(payload)?)
}

fn channel_in(message: &Message<'_>) -> Option<Channel>
    ensures { IfSome result (λ channel. HasChannel (parts_of message.now) channel) }
{
    let number = number_of(message)?;
    let peer = peer_in(message)?;
    Some(Channel { number, peer })
}

/// The number in a CHANNEL-NUMBER (RFC 8656, section 18.1).
#[tactic(auto, unfolding(crate::specs::Says::number_in))]
fn number_of(message: &Message<'_>) -> Option<u16>
    ensures { result ≡ number_in (first_of CHANNEL_NUMBER (parts_of message.now).attributes) }
{
    let [high, low, _, _] = message.first(CHANNEL_NUMBER)? else {
        return None;
    };
    Some(u16::from_be_bytes([*high, *low]))
}
