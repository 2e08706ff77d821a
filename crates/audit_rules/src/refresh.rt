//! A Refresh request and its success response (RFC 8656, section 8). See docs/RULES.md, Refresh.

ghost use Rattle.std.specs.Prelude.{◌≡◌, ◌↔◌, IsTrue, Some, MatchResult};
ghost use Rattle.audit_rules.specs.Situation.{arrival_parts, answered};
ghost use Rattle.audit_rules.specs.Values.{lifetime_of};
ghost use Rattle.audit_rules.specs.Standing.{WithUsable};
ghost use Rattle.audit_rules.specs.Allocating.{EndsNothing};
ghost use Rattle.audit_rules.specs.Check.{AllHold, FirstFails};
ghost use Rattle.audit_rules.specs.Checks.{refresh_checks};
ghost use Rattle.audit_rules.specs.Seen.{situation};

use crate::acts::Act;
use crate::credentials::{authenticated, signed_back};
use crate::usable::usable_allocation;
use crate::values::lifetime_in;
use audit_model::Rule;
use audit_stun::Message;

/// The seconds for which the allocation lasts from now on; 0 if it is removed. A success response
/// with LIFETIME 0 to a request with LIFETIME 0 is accepted if there is no usable allocation (own:
/// RFC 8656 requires error 437).
pub fn refresh(act: &Act<'_, '_>, request: &Message<'_>, success: &Message<'_>) -> Result<u32, Rule>
    requires request { request.now ≡ (situation act.now).arrives.payload }
    requires success { success.now ≡ (situation act.now).leaves.payload }
    ensures { MatchResult result
        (λ seconds. AllHold (refresh_checks (situation act.now)) × (lifetime_of (answered (situation act.now)) ≡ Some seconds))
        (λ rule. FirstFails (refresh_checks (situation act.now)) rule) }
{
    let Some(signer) = authenticated(act, request) else {
        return Err(Rule::NotAuthentic);
    };
    let Some(seconds) = lifetime_in(success) else {
        return Err(Rule::Malformed);
    };
    let is_deletion = lifetime_in(request) == Some(0);
    let usable = usable_allocation(act);
    if usable.is_ok() || !is_deletion || seconds != 0 {
        let found = usable?;
        if signer.user != found.user.as_slice() {
            return Err(Rule::OtherUser);
        }
        if is_deletion != (seconds == 0) {
            return Err(Rule::Lifetime);
        }
    }
    if !signed_back(act, &signer, success) {
        return Err(Rule::ResponseIntegrity);
    }
    Ok(seconds)
}
