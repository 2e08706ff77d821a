//! Judges an act of a lane.

ghost use Rattle.std.specs.Prelude.{◌≡◌, IfErr, IfOk};
ghost use Rattle.audit_rules.specs.Answer.{MayAnswer};
ghost use Rattle.audit_rules.specs.Changes.{IsChanged};
ghost use Rattle.audit_rules.specs.Effect.{standing};
ghost use Rattle.audit_rules.specs.Fault.{IsBroken};
ghost use Rattle.audit_rules.specs.Said.{change_in};
ghost use Rattle.audit_rules.specs.Seen.{situation_of};
ghost use Rattle.audit_rules.specs.Values.{AreBytes};
ghost use Rattle.audit_lane.specs.Content.{numbered};
ghost use Rattle.audit_lane.specs.Faults.{BreaksFirst, is_past as past};

use audit_model::{At, Policy, Sighting, Tenancy};
use audit_rules::{ActFault, CredRow, LaneTable, act};
use std::alloc::Global;

/// Whether a moment is past the time for which an arrival may be held.
pub fn is_past(hold: u64, arrived: u64, moment: u64) -> bool
    ensures { result ≡ past hold arrived moment }
{
    moment > arrived.saturating_add(hold)
}

/// The user of that number alone, if there is one. The time doesn't depend on the number of users.
pub fn user_alone<'u>(users: &'u [CredRow<'u>], number: Option<u32>) -> &'u [CredRow<'u>]
    ensures { result.now ≡ numbered users.now number }
{
    let Some(number) = number else {
        return &users[..0];
    };
    let start = number as usize;
    if start < users.len() {
        &users[start..start + 1]
    } else {
        &users[..0]
    }
}

/// A payload is bytes.
fn bytes(payload: &[u8])
    ensures { AreBytes payload.now }
{
    let _length = payload.len();
}

/// Judges an act by the table's rules, with the key of the user of that number, and changes the
/// table by it. Returns the tenancy that ended.
pub fn judge_act(
    alloc: Global,
    table: &mut LaneTable,
    users: &[CredRow<'_>],
    user: Option<u32>,
    policy: &Policy,
    arrives: &Sighting,
    leaves: &Sighting,
    at: At,
) -> Result<Option<Tenancy>, ActFault>
    ensures may { IfOk result (λ ended. let x = situation_of table.old (numbered users.now user) policy.now arrives.now leaves.now at.key.moment in
        MayAnswer x (change_in x) × IsChanged policy.now.grace at arrives.now.id (change_in x) (standing table.old) (standing table.new) ended) }
    ensures broken { IfErr result (λ fault. IsBroken fault (λ rule. BreaksFirst (situation_of table.old (numbered users.now user) policy.now arrives.now leaves.now at.key.moment) rule)) }
{
    bytes(arrives.payload.as_slice());
    bytes(leaves.payload.as_slice());
    let alone = user_alone(users, user);
    match act(alloc, table, alone, policy, arrives, leaves, at) {
        Ok(ended) => Ok(ended),
        Err(fault) => Err(fault),
    }
}
