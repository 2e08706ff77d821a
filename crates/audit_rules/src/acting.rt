//! Judges an act, and changes the table by it.

ghost use Rattle.std.specs.Prelude.{◌≡◌, IfOk, IfErr, OnErr};
ghost use Rattle.audit_rules.specs.Answer.{MayAnswer};
ghost use Rattle.audit_rules.specs.FirstRule.{FirstRule};
ghost use Rattle.audit_rules.specs.Fault.{IsBroken};
ghost use Rattle.audit_rules.specs.Said.{change_in};
ghost use Rattle.audit_rules.specs.Effect.{standing};
ghost use Rattle.audit_rules.specs.Changes.{IsChanged};
ghost use Rattle.audit_rules.specs.Seen.{situation_of};

use crate::acts::Act;
use crate::change::{ActAt, change};
use crate::credentials::CredRow;
use crate::fault::ActFault;
use crate::judging::judged;
use crate::table::LaneTable;
use audit_model::{At, Policy, Sighting, Tenancy};
use std::alloc::Global;

/// Judges the act that sends a departure for an arrival, and changes the table as the server does
/// (RFC 8656).
///
/// Returns the tenancy that the act ended, if any. It fails by the first rule, R1 to R21, that the
/// act breaks, or if memory is exhausted; the table is then unchanged. It searches all users, of
/// whom only the one that the request names matters (of two rows of one user and realm the first
/// counts). Pass that one alone, by `CredRow::of`, and the time doesn't depend on the number of
/// users. For a ChannelBind it searches the channels. It hashes only what the case requires to be
/// signed, and allocates memory only for what is added to the table.
pub fn act(
    alloc: Global,
    table: &mut LaneTable,
    users: &[CredRow<'_>],
    policy: &Policy,
    arrives: &Sighting,
    leaves: &Sighting,
    at: At,
) -> Result<Option<Tenancy>, ActFault>
    // The server may act so, and the table is changed by the departure.
    ensures ok { IfOk result (λ ended. let x = situation_of table.old users.now policy.now arrives.now leaves.now at.key.moment in
        MayAnswer x (change_in x) × IsChanged policy.now.grace at arrives.now.id (change_in x) (standing table.old) (standing table.new) ended) }
    // The rule is that of the first check that fails.
    ensures broken { IfErr result (λ fault. IsBroken fault (λ rule. FirstRule (situation_of table.old users.now policy.now arrives.now leaves.now at.key.moment) rule)) }
    ensures err { OnErr result (standing table.new ≡ standing table.old) }
{
    let effect = judged(
        alloc,
        &Act {
            table,
            users,
            policy,
            arrives,
            leaves,
            moment: at.key.moment,
        },
    )?;
    let by = ActAt {
        at,
        sight: arrives.id,
        grace: policy.grace,
    };
    Ok(change(alloc, table, by, effect)?)
}
