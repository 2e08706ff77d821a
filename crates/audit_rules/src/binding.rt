//! A Binding request and its success response (RFC 8489, section 2). See docs/RULES.md, Binding.

ghost use Rattle.std.specs.Prelude.{◌≡◌, MatchResult};
ghost use Rattle.audit_stun.specs.declared.numbers.attribute.TheConstants.{XOR_MAPPED_ADDRESS};
ghost use Rattle.audit_rules.specs.Situation.{answered};
ghost use Rattle.audit_rules.specs.Values.{Names};
ghost use Rattle.audit_rules.specs.Check.{FirstFails};
ghost use Rattle.audit_rules.specs.Checks.{binding_checks};
ghost use Rattle.audit_rules.specs.Seen.{situation};

use crate::acts::Act;
use crate::values::address_in;
use audit_model::Rule;
use audit_stun::Message;
use audit_stun::numbers::attribute::XOR_MAPPED_ADDRESS;

/// Checks that the response has the client's own address.
pub fn binding(act: &Act<'_, '_>, success: &Message<'_>) -> Result<(), Rule>
    requires { success.now ≡ (situation act.now).leaves.payload }
    ensures { MatchResult result (λ _. Names XOR_MAPPED_ADDRESS (answered (situation act.now)) (situation act.now).client)
        (λ rule. FirstFails (binding_checks (situation act.now)) rule) }
{
    let Some(mapped) = address_in(success, XOR_MAPPED_ADDRESS) else {
        return Err(Rule::Malformed);
    };
    if mapped != act.table.client {
        return Err(Rule::MappedAddress);
    }
    Ok(())
}
