//! An error response (RFC 8489, section 6.3.4; RFC 8656, sections 5, 7.2 and 8.2). See
//! docs/RULES.md, Error.

ghost use Rattle.std.specs.Prelude.{◌≡◌, ◌↔◌, IsTrue, MatchResult};
ghost use Rattle.audit_rules.specs.Situation.{arrival_parts};
ghost use Rattle.audit_rules.specs.Responses.{Fits, IsMismatch, IsByOther, RequestsOtherTransport};
ghost use Rattle.audit_rules.specs.Check.{AllHold, FirstFails};
ghost use Rattle.audit_rules.specs.Checks.{error_checks};
ghost use Rattle.audit_rules.specs.Seen.{situation};

use crate::acts::Act;
use crate::allocate::nothing_lasts;
use crate::credentials::authenticated;
use crate::usable::usable_allocation;
use crate::values::{UDP, error_code_in, transport_in};
use audit_model::Rule;
use audit_stun::Message;
use audit_stun::numbers::attribute::{NONCE, REALM, UNKNOWN_ATTRIBUTES};
use audit_stun::numbers::method::ALLOCATE;

/// Whether another transport than UDP is requested.
fn requests_other_transport(act: &Act<'_, '_>, request: &Message<'_>) -> bool
    requires { request.now ≡ (situation act.now).arrives.payload }
    ensures { IsTrue result ↔ RequestsOtherTransport (situation act.now) }
{
    match transport_in(request) {
        None => false,
        Some(protocol) => protocol != UDP,
    }
}

/// 437, Allocation Mismatch: an Allocate while an allocation is usable, or another request while
/// none lasts.
fn is_mismatch(act: &Act<'_, '_>, request: &Message<'_>) -> bool
    requires { request.now ≡ (situation act.now).arrives.payload }
    ensures { IsTrue result ↔ IsMismatch (situation act.now) }
{
    if request.method() == ALLOCATE {
        usable_allocation(act).is_ok()
    } else {
        nothing_lasts(act)
    }
}

/// 441, Wrong Credentials: another user requests a change of the usable allocation.
fn is_by_other(act: &Act<'_, '_>, request: &Message<'_>) -> bool
    requires { request.now ≡ (situation act.now).arrives.payload }
    ensures { IsTrue result ↔ IsByOther (situation act.now) }
{
    let Ok(found) = usable_allocation(act) else {
        return false;
    };
    match authenticated(act, request) {
        None => false,
        Some(signer) => signer.user != found.user.as_slice(),
    }
}

/// Whether the server's state fits the code.
fn fits(act: &Act<'_, '_>, request: &Message<'_>, response: &Message<'_>, code: u16) -> bool
    requires request { request.now ≡ (situation act.now).arrives.payload }
    requires response { response.now ≡ (situation act.now).leaves.payload }
    ensures { IsTrue result ↔ Fits (situation act.now) code }
{
    match code {
        401 | 438 => response.first(REALM).is_some() && response.first(NONCE).is_some(),
        420 => response.first(UNKNOWN_ATTRIBUTES).is_some(),
        437 => is_mismatch(act, request),
        441 => is_by_other(act, request),
        442 => request.method() == ALLOCATE && requests_other_transport(act, request),
        _ => true,
    }
}

/// Checks an error response of any method: its code can be read, and the server's state fits it.
pub fn error(act: &Act<'_, '_>, request: &Message<'_>, response: &Message<'_>) -> Result<(), Rule>
    requires request { request.now ≡ (situation act.now).arrives.payload }
    requires response { response.now ≡ (situation act.now).leaves.payload }
    ensures { MatchResult result
        (λ _. AllHold (error_checks (situation act.now)))
        (λ rule. FirstFails (error_checks (situation act.now)) rule) }
{
    let Some(code) = error_code_in(response) else {
        return Err(Rule::Malformed);
    };
    if !fits(act, request, response, code) {
        return Err(Rule::ErrorCondition);
    }
    Ok(())
}
