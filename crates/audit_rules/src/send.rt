//! A Send indication and the datagram that relays it to a peer (RFC 8656, sections 11.1 and 11.2).
//! See docs/RULES.md, Send.

ghost use Rattle.std.specs.Prelude.{◌≡◌, MatchResult};
ghost use Rattle.audit_rules.specs.Check.{AllHold, FirstFails};
ghost use Rattle.audit_rules.specs.Checks.{send_checks};
ghost use Rattle.audit_rules.specs.Seen.{situation};

use crate::acts::Act;
use crate::usable::usable_allocation;
use crate::values::address_in;
use audit_model::Rule;
use audit_stun::Message;
use audit_stun::numbers::attribute::{DATA, XOR_PEER_ADDRESS};

/// Checks that the data goes from the relayed address to the peer that the indication names.
pub fn send(act: &Act<'_, '_>, indication: &Message<'_>) -> Result<(), Rule>
    requires { indication.now ≡ (situation act.now).arrives.payload }
    ensures { MatchResult result (λ _. AllHold (send_checks (situation act.now))) (λ rule. FirstFails (send_checks (situation act.now)) rule) }
{
    let found = usable_allocation(act)?;
    if act.leaves.from != found.relayed {
        return Err(Rule::RelayedAddress);
    }
    if address_in(indication, XOR_PEER_ADDRESS) != Some(act.leaves.to) {
        return Err(Rule::PeerDiffers);
    }
    let Some(permission) = found.permissions.get(act.leaves.to.ip) else {
        return Err(Rule::NoPermission);
    };
    if !permission.usable(act.moment, act.policy.grace) {
        return Err(Rule::PermissionOver);
    }
    if indication.first(DATA) != Some(act.leaves.payload.as_slice()) {
        return Err(Rule::DataDiffers);
    }
    Ok(())
}
