//! Judges one act, by its paths.

ghost use Rattle.std.specs.Prelude.{◌≡◌, false, Some, IsTrue, MatchResult};
ghost use Rattle.audit_rules.specs.declared.path.Path.TheVariants as paths;
ghost use Rattle.audit_rules.specs.Allocation.{Same};
ghost use Rattle.audit_rules.specs.Situation.{IsServed, arrival_path, departure_path};
ghost use Rattle.audit_rules.specs.Relaying.{GoesUp, GoesDown};
ghost use Rattle.audit_rules.specs.Check.{FirstFails};
ghost use Rattle.audit_rules.specs.FirstRule.{FirstRule, response_checks, up_checks, down_checks, is_channel};
ghost use Rattle.audit_rules.specs.Fault.{IsBroken};
ghost use Rattle.audit_rules.specs.Judged.{MayTakeEffect};
ghost use Rattle.audit_rules.specs.Seen.{situation};

use crate::acts::Act;
use crate::channel_down::channel_down;
use crate::channel_up::channel_up;
use crate::data::data;
use crate::effect::Effect;
use crate::fault::ActFault;
use crate::path::{Path, path_of_arrival, path_of_departure};
use crate::responses::{error_response, success_response};
use crate::send::send;
use audit_model::Rule;
use audit_stun::numbers::method::{DATA, SEND};
use audit_stun::{Class, channel_data, message};
use std::alloc::Global;

/// Judges a request of the client and its response: a success or error response with the request's
/// method and transaction id (RFC 8489, section 6.3).
fn response<'a>(alloc: Global, act: &Act<'_, 'a>) -> Result<Effect<'a>, ActFault>
    requires served { IsServed (situation act.now) }
    requires forth { arrival_path (situation act.now) ≡ Some paths.Client }
    requires back { departure_path (situation act.now) ≡ Some paths.Client }
    ensures { MatchResult result
        (MayTakeEffect act.now)
        (λ fault. IsBroken fault (λ rule. FirstFails (response_checks (situation act.now)) rule)) }
{
    let Some(answer) = message(act.leaves.payload.as_slice()) else {
        return Err(ActFault::Broken(Rule::Malformed));
    };
    let Some(request) = message(act.arrives.payload.as_slice()) else {
        return Err(ActFault::Broken(Rule::NotAnAnswer));
    };
    if request.class() != Class::Request
        || answer.method() != request.method()
        || answer.tid() != request.tid()
    {
        return Err(ActFault::Broken(Rule::NotAnAnswer));
    }
    match answer.class() {
        Class::Success => success_response(alloc, act, &request, &answer),
        Class::Error => Ok(error_response(act, &request, &answer)?),
        Class::Request | Class::Indication => Err(ActFault::Broken(Rule::NotAnAnswer)),
    }
}

/// Whether the first two bits are those of ChannelData (RFC 8656, section 12).
fn begins_channel(payload: &[u8]) -> bool
    ensures { result ≡ is_channel payload.now }
{
    match payload {
        [first, ..] => *first / 64 == 1,
        [] => false,
    }
}

/// Judges ChannelData of the client.
#[tactic(auto, using(crate::proofs::Answered::channel_up_may))]
fn sent_in_channel<'a>(act: &Act<'_, '_>) -> Result<Effect<'a>, Rule>
    requires served { IsServed (situation act.now) }
    requires goes { GoesUp (situation act.now) }
    requires channel { IsTrue (is_channel (situation act.now).arrives.payload) }
    ensures { MatchResult result
        (MayTakeEffect act.now)
        (λ rule. FirstFails (up_checks (situation act.now)) rule) }
{
    let Some((number, bytes, past)) = channel_data(act.arrives.payload.as_slice()) else {
        return Err(Rule::NotAnAnswer);
    };
    channel_up(act, number, bytes, past)?;
    Ok(Effect::Same)
}

/// Judges a Send indication.
#[tactic(auto, using(crate::proofs::Answered::send_may))]
fn sent_in_indication<'a>(act: &Act<'_, '_>) -> Result<Effect<'a>, Rule>
    requires served { IsServed (situation act.now) }
    requires goes { GoesUp (situation act.now) }
    requires channel { is_channel (situation act.now).arrives.payload ≡ false }
    ensures { MatchResult result
        (MayTakeEffect act.now)
        (λ rule. FirstFails (up_checks (situation act.now)) rule) }
{
    let Some(indication) = message(act.arrives.payload.as_slice()) else {
        return Err(Rule::NotAnAnswer);
    };
    if indication.class() != Class::Indication || indication.method() != SEND {
        return Err(Rule::NotAnAnswer);
    }
    send(act, &indication)?;
    Ok(Effect::Same)
}

/// Judges ChannelData to the client.
#[tactic(auto, using(crate::proofs::Answered::channel_down_may))]
fn delivered_in_channel<'a>(act: &Act<'_, '_>) -> Result<Effect<'a>, Rule>
    requires served { IsServed (situation act.now) }
    requires goes { GoesDown (situation act.now) }
    requires channel { IsTrue (is_channel (situation act.now).leaves.payload) }
    ensures { MatchResult result
        (MayTakeEffect act.now)
        (λ rule. FirstFails (down_checks (situation act.now)) rule) }
{
    let Some((number, bytes, past)) = channel_data(act.leaves.payload.as_slice()) else {
        return Err(Rule::Malformed);
    };
    channel_down(act, number, bytes, past)?;
    Ok(Effect::Same)
}

/// Judges a Data indication.
#[tactic(auto, using(crate::proofs::Answered::data_may))]
fn delivered_in_indication<'a>(act: &Act<'_, '_>) -> Result<Effect<'a>, Rule>
    requires served { IsServed (situation act.now) }
    requires goes { GoesDown (situation act.now) }
    requires channel { is_channel (situation act.now).leaves.payload ≡ false }
    ensures { MatchResult result
        (MayTakeEffect act.now)
        (λ rule. FirstFails (down_checks (situation act.now)) rule) }
{
    let Some(indication) = message(act.leaves.payload.as_slice()) else {
        return Err(Rule::Malformed);
    };
    if indication.class() != Class::Indication || indication.method() != DATA {
        return Err(Rule::NotAnAnswer);
    }
    data(act, &indication)?;
    Ok(Effect::Same)
}

/// The effect of the act on the table, or the first rule that it breaks.
pub fn judged<'a>(alloc: Global, act: &Act<'_, 'a>) -> Result<Effect<'a>, ActFault>
    ensures { MatchResult result
        (MayTakeEffect act.now)
        (λ fault. IsBroken fault (λ rule. FirstRule (situation act.now) rule)) }
{
    if !act.policy.listens(act.table.listen) {
        return Err(ActFault::Broken(Rule::NotAnAnswer));
    }
    match (path_of_arrival(act), path_of_departure(act)) {
        (Some(Path::Client), Some(Path::Client)) => response(alloc, act),
        (Some(Path::Client), Some(Path::Relay)) => {
            if begins_channel(act.arrives.payload.as_slice()) {
                Ok(sent_in_channel(act)?)
            } else {
                Ok(sent_in_indication(act)?)
            }
        }
        (Some(Path::Relay), Some(Path::Client)) => {
            if begins_channel(act.leaves.payload.as_slice()) {
                Ok(delivered_in_channel(act)?)
            } else {
                Ok(delivered_in_indication(act)?)
            }
        }
        _ => Err(ActFault::Broken(Rule::NotAnAnswer)),
    }
}
