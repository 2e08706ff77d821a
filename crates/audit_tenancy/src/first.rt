//! Finds the first clash.

ghost use Rattle.std.specs.Prelude.{◌≡◌, IfOk, IsSorted};
ghost use Rattle.audit_model.specs.Clash.{ShowsClash, breach_of};
ghost use Rattle.audit_model.specs.Least.{IsLeast};
ghost use Rattle.audit_tenancy.specs.Kept.{tenancy_cmp};

use crate::hold::order;
use crate::kept::Kept;
use audit_model::{Breach, Rule, Tenancy};
use std::alloc::{AllocError, Global};

/// The first breach of R22 in the order in which breaches are reported, or none exactly if no
/// tenancy clashes with an earlier one of another lane. The tenancies may be in any order.
///
/// It copies and sorts them once: n log n time, and memory for n tenancies.
pub fn clash(alloc: Global, tenancies: &[Tenancy]) -> Result<Option<Breach>, AllocError>
    ensures { IfOk result (IsLeast (ShowsClash tenancies.now)) }
{
    let mut sorted = tenancies.to_vec(alloc)?;
    sorted.sort_unstable_by(|one, other| order(one, other));
    Ok(first_clash(&sorted))
}

/// The first breach of R22, for tenancies in order.
fn first_clash(sorted: &[Tenancy]) -> Option<Breach>
    requires { IsSorted tenancy_cmp sorted.now }
    ensures { IsLeast (ShowsClash sorted.now) result }
{
    let mut kept = Kept {
        longest: None,
        other: None,
    };
    let mut least = None;
    for tenancy in sorted {
        if kept.clashes(tenancy) {
            least = Breach::least(least, Some(breach(tenancy)));
        }
        kept = kept.with(*tenancy);
    }
    least
}

fn breach(tenancy: &Tenancy) -> Breach
    ensures { result ≡ breach_of tenancy.now }
{
    Breach {
        at: tenancy.born,
        sight: tenancy.sight,
        rule: Rule::AddressHeld,
        phase: 3,
    }
}
