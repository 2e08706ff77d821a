//! A peer's datagram and the ChannelData that relays it to the client (RFC 8656, section 12.7). See
//! docs/RULES.md, Channel data down.

ghost use Rattle.std.specs.Prelude.{◌≡◌, ℕ, List, Some, MatchResult};
ghost use Rattle.audit_stun.specs.ChannelData.{channel_data_of};
ghost use Rattle.audit_rules.specs.Check.{AllHold, FirstFails};
ghost use Rattle.audit_rules.specs.Checks.{channel_down_checks};
ghost use Rattle.audit_rules.specs.Seen.{situation};

use crate::acts::Act;
use crate::usable::usable_allocation;
use audit_model::Rule;

/// The most bytes of padding that may follow the data (RFC 8656, section 12.5).
const MOST_PADDING: usize = 3;

/// Checks that the data is the peer's payload, in the channel that is bound to the peer.
pub fn channel_down(act: &Act<'_, '_>, number: u16, bytes: &[u8], past: usize) -> Result<(), Rule>
    requires { channel_data_of (situation act.now).leaves.payload ≡ Some (number, bytes.now, past) }
    ensures { MatchResult result (λ _. AllHold (channel_down_checks (situation act.now))) (λ rule. FirstFails (channel_down_checks (situation act.now)) rule) }
{
    if past > MOST_PADDING {
        return Err(Rule::Malformed);
    }
    let found = usable_allocation(act)?;
    if act.arrives.to != found.relayed {
        return Err(Rule::RelayedAddress);
    }
    let Some(permission) = found.permissions.get(act.arrives.from.ip) else {
        return Err(Rule::NoPermission);
    };
    if !permission.usable(act.moment, act.policy.grace) {
        return Err(Rule::PermissionOver);
    }
    let Some(channel) = found.channels.get(number) else {
        return Err(Rule::NoChannel);
    };
    if !channel.lease.usable(act.moment, act.policy.grace) {
        return Err(Rule::ChannelOver);
    }
    if channel.peer != act.arrives.from {
        return Err(Rule::PeerDiffers);
    }
    if bytes != act.arrives.payload.as_slice() {
        return Err(Rule::DataDiffers);
    }
    Ok(())
}
