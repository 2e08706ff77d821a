//! The start of captures: the arrival of an early departure may be from before them.

ghost use Rattle.std.specs.Prelude.{◌≡◌};
ghost use Rattle.prep_cut.specs.Edges.{edge_of, slack};

use crate::allocations::Allocations;
use crate::stated::Stated;
use audit_model::Policy;

/// Twice the greatest skew of a policy, in nanoseconds.
pub fn slack_of(policy: &Policy) -> u64
    ensures { result ≡ slack policy.now }
{
    let mut most = policy.skew;
    let skews = policy.skews.as_slice();
    for own in skews {
        most = most.max(own.skew);
    }
    most.saturating_mul(2)
}

/// The last moment of departures whose arrival may be from before the captures.
pub fn last_at_edge(policy: &Policy, stated: &Stated, allocations: &Allocations) -> u64
    ensures { result ≡ edge_of policy.now stated.now allocations.now }
{
    let begin = stated.since.unwrap_or(allocations.first);
    let reach = policy.hold.saturating_add(slack_of(policy));
    begin.saturating_add(reach)
}
