//! A ChannelBind request and its success response (RFC 8656, section 12). See docs/RULES.md,
//! ChannelBind.

ghost use Rattle.std.specs.Prelude.{◌≡◌, ◌↔◌, Some, false, IsTrue, MatchResult};
ghost use Rattle.audit_stun.specs.declared.numbers.attribute.TheConstants as attributes;
ghost use Rattle.audit_rules.specs.Situation.{arrival_parts};
ghost use Rattle.audit_rules.specs.Values.{address_named, channel_number_of};
ghost use Rattle.audit_rules.specs.Granting.{NoConflict};
ghost use Rattle.audit_rules.specs.Check.{AllHold, FirstFails};
ghost use Rattle.audit_rules.specs.Checks.{MayBind, channel_bind_checks};
ghost use Rattle.audit_rules.specs.Seen.{situation, seen};

use crate::acts::Act;
use crate::credentials::{authenticated, signed_back};
use crate::table::Allocation;
use crate::usable::usable_allocation;
use crate::values::{address_in, channel_number_in};
use audit_model::{Addr, Rule};
use audit_stun::Message;
use audit_stun::numbers::attribute::XOR_PEER_ADDRESS;

/// The first and the last channel number (RFC 8656, section 12).
const FIRST_CHANNEL: u16 = 0x4000;

const LAST_CHANNEL: u16 = 0x4FFF;

/// A channel number and the peer that it is bound to.
#[derive(Clone, Copy)]
pub struct Bound {
    pub number: u16,
    pub peer: Addr,
}

/// Whether the number is bound to another peer, or the peer to another number, and the binding
/// isn't gone.
fn conflicts(act: &Act<'_, '_>, allocation: &Allocation, bound: Bound) -> bool
    ensures yes { IsTrue result → NoConflict (situation act.now) bound.number bound.peer (seen allocation.now) → ⊥ }
    ensures no { result ≡ false → NoConflict (situation act.now) bound.number bound.peer (seen allocation.now) }
{
    let moment = act.moment;
    allocation.channels.any(|number, channel| {
        !channel.lease.gone(moment) && (number == bound.number) != (channel.peer == bound.peer)
    })
}

/// Whether the requested binding has no conflict.
fn may_bind(act: &Act<'_, '_>, allocation: &Allocation, bound: Bound) -> bool
    requires found { act.now.table.now.allocation ≡ Some allocation.now }
    requires number { channel_number_of (arrival_parts (situation act.now)) ≡ Some bound.number }
    requires peer { address_named attributes.XOR_PEER_ADDRESS (arrival_parts (situation act.now)) ≡ Some bound.peer }
    ensures { IsTrue result ↔ MayBind (situation act.now) }
{
    !conflicts(act, allocation, bound)
}

/// The number and the peer that are bound from now on. Of several peers the first counts.
pub fn channel_bind(
    act: &Act<'_, '_>,
    request: &Message<'_>,
    success: &Message<'_>,
) -> Result<Bound, Rule>
    requires request { request.now ≡ (situation act.now).arrives.payload }
    requires success { success.now ≡ (situation act.now).leaves.payload }
    ensures { MatchResult result
        (λ bound. AllHold (channel_bind_checks (situation act.now))
        × (channel_number_of (arrival_parts (situation act.now)) ≡ Some bound.number)
        × (address_named attributes.XOR_PEER_ADDRESS (arrival_parts (situation act.now)) ≡ Some bound.peer))
        (λ rule. FirstFails (channel_bind_checks (situation act.now)) rule) }
{
    let Some(signer) = authenticated(act, request) else {
        return Err(Rule::NotAuthentic);
    };
    let found = usable_allocation(act)?;
    if signer.user != found.user.as_slice() {
        return Err(Rule::OtherUser);
    }
    let Some(number) = channel_number_in(request) else {
        return Err(Rule::ChannelNumber);
    };
    if number < FIRST_CHANNEL || number > LAST_CHANNEL {
        return Err(Rule::ChannelNumber);
    }
    let Some(peer) = address_in(request, XOR_PEER_ADDRESS) else {
        return Err(Rule::PeerDiffers);
    };
    let bound = Bound { number, peer };
    if !may_bind(act, found, bound) {
        return Err(Rule::ChannelConflict);
    }
    if !signed_back(act, &signer, success) {
        return Err(Rule::ResponseIntegrity);
    }
    Ok(bound)
}
