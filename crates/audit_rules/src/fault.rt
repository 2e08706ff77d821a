//! Why an act is refused.

ghost use Rattle.std.specs.Prelude.{◌≡◌};
ghost use Rattle.audit_rules.specs.declared.fault.ActFault.TheVariants.{Broken, Memory};

use audit_model::Rule;
use std::alloc::AllocError;
use thiserror::Error;

/// Why an act is not judged to be right.
#[derive(Clone, Copy, Debug, PartialEq, Eq, Error)]
pub enum ActFault {
    /// The first rule that the act breaks, R1 to R21.
    #[error("the act breaks a rule")]
    Broken(Rule),
    /// Memory ran out.
    #[error("out of memory")]
    Memory,
}

impl From<Rule> for ActFault {
    ghost from_gives = { λ rule fault. fault ≡ Broken rule };

    fn from(rule: Rule) -> ActFault {
        ActFault::Broken(rule)
    }
}

impl From<AllocError> for ActFault {
    ghost from_gives = { λ _ fault. fault ≡ Memory };

    fn from(_error: AllocError) -> ActFault {
        ActFault::Memory
    }
}
