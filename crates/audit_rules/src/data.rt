//! A peer's datagram and the Data indication that relays it to the client (RFC 8656, section 11.3).
//! See docs/RULES.md, Data.

ghost use Rattle.std.specs.Prelude.{◌≡◌, MatchResult};
ghost use Rattle.audit_rules.specs.Check.{AllHold, FirstFails};
ghost use Rattle.audit_rules.specs.Checks.{data_checks};
ghost use Rattle.audit_rules.specs.Seen.{situation};

use crate::acts::Act;
use crate::usable::usable_allocation;
use crate::values::address_in;
use audit_model::Rule;
use audit_stun::Message;
use audit_stun::numbers::attribute::{DATA, XOR_PEER_ADDRESS};

/// Checks that the indication names the peer and has its payload. Whether a channel is bound to the
/// peer doesn't matter (own).
pub fn data(act: &Act<'_, '_>, indication: &Message<'_>) -> Result<(), Rule>
    requires { indication.now ≡ (situation act.now).leaves.payload }
    ensures { MatchResult result (λ _. AllHold (data_checks (situation act.now))) (λ rule. FirstFails (data_checks (situation act.now)) rule) }
{
    let Some(peer) = address_in(indication, XOR_PEER_ADDRESS) else {
        return Err(Rule::Malformed);
    };
    let Some(data) = indication.first(DATA) else {
        return Err(Rule::Malformed);
    };
    let found = usable_allocation(act)?;
    if act.arrives.to != found.relayed {
        return Err(Rule::RelayedAddress);
    }
    let Some(permission) = found.permissions.get(act.arrives.from.ip) else {
        return Err(Rule::NoPermission);
    };
    if !permission.usable(act.moment, act.policy.grace) {
        return Err(Rule::PermissionOver);
    }
    if peer != act.arrives.from {
        return Err(Rule::PeerDiffers);
    }
    if data != act.arrives.payload.as_slice() {
        return Err(Rule::DataDiffers);
    }
    Ok(())
}
