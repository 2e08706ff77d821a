//! The client's allocation, while it may be used.

ghost use Rattle.std.specs.Prelude.{◌≡◌, [], Some, MatchResult};
ghost use Rattle.audit_rules.specs.Standing.{UsableNow};
ghost use Rattle.audit_rules.specs.Check.{FirstFails};
ghost use Rattle.audit_rules.specs.Checks.{with_allocation};
ghost use Rattle.audit_rules.specs.Seen.{situation};

use crate::acts::Act;
use crate::table::Allocation;
use audit_model::Rule;

/// The client's allocation, if there is one and it is usable (RFC 8656, section 6).
pub fn usable_allocation<'t>(act: &Act<'t, '_>) -> Result<&'t Allocation, Rule>
    ensures { MatchResult result
        (λ found. (act.now.table.now.allocation ≡ Some found.now) × UsableNow (situation act.now) found.now.lease.until)
        (λ rule. FirstFails (with_allocation (situation act.now) []) rule) }
{
    let Some(found) = &act.table.allocation else {
        return Err(Rule::NoAllocation);
    };
    if !found.lease.usable(act.moment, act.policy.grace) {
        return Err(Rule::AllocationOver);
    }
    Ok(found)
}
