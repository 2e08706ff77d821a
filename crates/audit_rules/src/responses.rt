//! Judges a response to a request of the client, by its class and method.

ghost use Rattle.std.specs.Prelude.{◌≡◌, false, IsTrue, MatchResult};
ghost use Rattle.audit_stun.specs.declared.class.Class.TheVariants.{Success, Error};
ghost use Rattle.audit_stun.specs.declared.numbers.method.TheConstants as methods;
ghost use Rattle.audit_rules.specs.Allocation.{Same};
ghost use Rattle.audit_rules.specs.Situation.{IsServed, arrival_parts, answered};
ghost use Rattle.audit_rules.specs.Standing.{IsResponse};
ghost use Rattle.audit_rules.specs.Check.{FirstFails};
ghost use Rattle.audit_rules.specs.Checks.{binding_checks, error_checks, new_checks, again_checks, refresh_checks, permission_checks, channel_bind_checks};
ghost use Rattle.audit_rules.specs.FirstRule.{choose, made_it, success_checks};
ghost use Rattle.audit_rules.specs.Fault.{IsBroken};
ghost use Rattle.audit_rules.specs.Judged.{MayTakeEffect};
ghost use Rattle.audit_rules.specs.Seen.{situation};

use crate::acts::Act;
use crate::allocate::{is_again, new_allocation, repeated_allocation};
use crate::binding::binding;
use crate::channel_bind::channel_bind;
use crate::effect::Effect;
use crate::error::error;
use crate::fault::ActFault;
use crate::permission::permission;
use crate::refresh::refresh;
use audit_model::Rule;
use audit_stun::Message;
use audit_stun::numbers::method::{ALLOCATE, BINDING, CHANNEL_BIND, CREATE_PERMISSION, REFRESH};
use std::alloc::Global;

#[tactic(auto, using(crate::proofs::Answered::binding_may))]
fn binding_success<'a>(act: &Act<'_, '_>, success: &Message<'_>) -> Result<Effect<'a>, Rule>
    requires success { success.now ≡ (situation act.now).leaves.payload }
    requires served { IsServed (situation act.now) }
    requires response { IsResponse (situation act.now) Success methods.BINDING }
    ensures { MatchResult result
        (MayTakeEffect act.now)
        (λ rule. FirstFails (binding_checks (situation act.now)) rule) }
{
    binding(act, success)?;
    Ok(Effect::Same)
}

/// The repeated response for an allocation that this request made.
#[tactic(auto, using(crate::proofs::Answered::again_may))]
fn allocation_again<'a>(
    act: &Act<'_, '_>,
    request: &Message<'a>,
    success: &Message<'_>,
) -> Result<Effect<'a>, Rule>
    requires request { request.now ≡ (situation act.now).arrives.payload }
    requires success { success.now ≡ (situation act.now).leaves.payload }
    requires served { IsServed (situation act.now) }
    requires response { IsResponse (situation act.now) Success methods.ALLOCATE }
    requires again { IsTrue (made_it (situation act.now) (situation act.now).allocation) }
    ensures { MatchResult result
        (MayTakeEffect act.now)
        (λ rule. FirstFails (again_checks (situation act.now)) rule) }
{
    let Some(found) = &act.table.allocation else {
        return Ok(Effect::Same);
    };
    repeated_allocation(act, found, request, success)?;
    Ok(Effect::Same)
}

#[tactic(auto, using(crate::proofs::Answered::new_may))]
fn allocation_made<'a>(
    act: &Act<'_, '_>,
    request: &Message<'a>,
    success: &Message<'_>,
) -> Result<Effect<'a>, Rule>
    requires request { request.now ≡ (situation act.now).arrives.payload }
    requires success { success.now ≡ (situation act.now).leaves.payload }
    requires served { IsServed (situation act.now) }
    requires response { IsResponse (situation act.now) Success methods.ALLOCATE }
    requires first { made_it (situation act.now) (situation act.now).allocation ≡ false }
    ensures { MatchResult result
        (MayTakeEffect act.now)
        (λ rule. FirstFails (new_checks (situation act.now)) rule) }
{
    let made = new_allocation(act, request, success)?;
    Ok(Effect::Makes {
        made,
        id: request.tid(),
    })
}

#[tactic(auto, using(crate::proofs::Answered::refresh_may))]
fn refresh_success<'a>(
    act: &Act<'_, '_>,
    request: &Message<'a>,
    success: &Message<'_>,
) -> Result<Effect<'a>, Rule>
    requires request { request.now ≡ (situation act.now).arrives.payload }
    requires success { success.now ≡ (situation act.now).leaves.payload }
    requires served { IsServed (situation act.now) }
    requires response { IsResponse (situation act.now) Success methods.REFRESH }
    ensures { MatchResult result
        (MayTakeEffect act.now)
        (λ rule. FirstFails (refresh_checks (situation act.now)) rule) }
{
    let seconds = refresh(act, request, success)?;
    Ok(Effect::Refreshes { seconds })
}

#[tactic(auto, using(crate::proofs::Answered::permission_may))]
fn permission_success<'a>(
    alloc: Global,
    act: &Act<'_, '_>,
    request: &Message<'a>,
    success: &Message<'_>,
) -> Result<Effect<'a>, ActFault>
    requires request { request.now ≡ (situation act.now).arrives.payload }
    requires success { success.now ≡ (situation act.now).leaves.payload }
    requires served { IsServed (situation act.now) }
    requires response { IsResponse (situation act.now) Success methods.CREATE_PERMISSION }
    ensures { MatchResult result
        (MayTakeEffect act.now)
        (λ fault. IsBroken fault (λ rule. FirstFails (permission_checks (situation act.now)) rule)) }
{
    let ips = permission(alloc, act, request, success)?;
    Ok(Effect::Grants { ips })
}

#[tactic(auto, using(crate::proofs::Answered::channel_bind_may))]
fn channel_bind_success<'a>(
    act: &Act<'_, '_>,
    request: &Message<'a>,
    success: &Message<'_>,
) -> Result<Effect<'a>, Rule>
    requires request { request.now ≡ (situation act.now).arrives.payload }
    requires success { success.now ≡ (situation act.now).leaves.payload }
    requires served { IsServed (situation act.now) }
    requires response { IsResponse (situation act.now) Success methods.CHANNEL_BIND }
    ensures { MatchResult result
        (MayTakeEffect act.now)
        (λ rule. FirstFails (channel_bind_checks (situation act.now)) rule) }
{
    let bound = channel_bind(act, request, success)?;
    Ok(Effect::Binds { bound })
}

/// An error response, to a request of any method.
#[tactic(auto, using(crate::proofs::Answered::error_may))]
pub fn error_response<'a>(
    act: &Act<'_, '_>,
    request: &Message<'a>,
    response: &Message<'_>,
) -> Result<Effect<'a>, Rule>
    requires request { request.now ≡ (situation act.now).arrives.payload }
    requires error { response.now ≡ (situation act.now).leaves.payload }
    requires served { IsServed (situation act.now) }
    requires response { IsResponse (situation act.now) Error (arrival_parts (situation act.now)).method }
    ensures { MatchResult result
        (MayTakeEffect act.now)
        (λ rule. FirstFails (error_checks (situation act.now)) rule) }
{
    error(act, request, response)?;
    Ok(Effect::Same)
}

/// A success response, by its method.
pub fn success_response<'a>(
    alloc: Global,
    act: &Act<'_, '_>,
    request: &Message<'a>,
    success: &Message<'_>,
) -> Result<Effect<'a>, ActFault>
    requires request { request.now ≡ (situation act.now).arrives.payload }
    requires success { success.now ≡ (situation act.now).leaves.payload }
    requires served { IsServed (situation act.now) }
    requires response { IsResponse (situation act.now) Success (answered (situation act.now)).method }
    ensures { MatchResult result
        (MayTakeEffect act.now)
        (λ fault. IsBroken fault (λ rule. FirstFails (success_checks (situation act.now) (answered (situation act.now)).method) rule)) }
{
    match success.method() {
        BINDING => Ok(binding_success(act, success)?),
        ALLOCATE if is_again(act, request) => Ok(allocation_again(act, request, success)?),
        ALLOCATE => Ok(allocation_made(act, request, success)?),
        REFRESH => Ok(refresh_success(act, request, success)?),
        CREATE_PERMISSION => permission_success(alloc, act, request, success),
        CHANNEL_BIND => Ok(channel_bind_success(act, request, success)?),
        _ => Err(ActFault::Broken(Rule::NotAnAnswer)),
    }
}
