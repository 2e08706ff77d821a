//! ChannelData of the client and the datagram that relays it to a peer (RFC 8656, section 12.6).
//! See docs/RULES.md, Channel data up.

ghost use Rattle.std.specs.Prelude.{◌≡◌, ℕ, List, Some, MatchResult};
ghost use Rattle.audit_stun.specs.ChannelData.{channel_data_of};
ghost use Rattle.audit_rules.specs.Check.{AllHold, FirstFails};
ghost use Rattle.audit_rules.specs.Checks.{channel_up_checks};
ghost use Rattle.audit_rules.specs.Seen.{situation};

use crate::acts::Act;
use crate::usable::usable_allocation;
use audit_model::Rule;

/// Checks that the data goes from the relayed address to the channel's peer. No permission is
/// required (own).
pub fn channel_up(act: &Act<'_, '_>, number: u16, bytes: &[u8], past: usize) -> Result<(), Rule>
    requires { channel_data_of (situation act.now).arrives.payload ≡ Some (number, bytes.now, past) }
    ensures { MatchResult result (λ _. AllHold (channel_up_checks (situation act.now))) (λ rule. FirstFails (channel_up_checks (situation act.now)) rule) }
{
    let found = usable_allocation(act)?;
    if act.leaves.from != found.relayed {
        return Err(Rule::RelayedAddress);
    }
    let Some(channel) = found.channels.get(number) else {
        return Err(Rule::NoChannel);
    };
    if !channel.lease.usable(act.moment, act.policy.grace) {
        return Err(Rule::ChannelOver);
    }
    if channel.peer != act.leaves.to {
        return Err(Rule::PeerDiffers);
    }
    if bytes != act.leaves.payload.as_slice() {
        return Err(Rule::DataDiffers);
    }
    Ok(())
}
