//! Why a step of a lane is refused.

ghost use Rattle.std.specs.Prelude.{◌≡◌};
ghost use Rattle.audit_lane.specs.Walk.{breach_by};
ghost use Rattle.audit_lane.specs.declared.fault.LaneFault.TheVariants.{Broken};

use audit_model::{At, Breach, Rule, SightId};
use std::alloc::AllocError;

/// Why a step is refused.
#[derive(Clone, Copy, Debug, PartialEq, Eq)]
pub enum LaneFault {
    /// The breach that the event shows.
    Broken(Breach),
    /// Memory ran out.
    Memory,
}

impl From<AllocError> for LaneFault {
    ghost use Rattle.std.specs.Prelude.{◌≡◌};
    ghost use Rattle.audit_lane.specs.declared.fault.LaneFault.TheVariants.{Memory};

    ghost from_gives = { λ _ fault. fault ≡ Memory };

    fn from(_error: AllocError) -> LaneFault {
        LaneFault::Memory
    }
}

/// The breach of a rule by an event of a lane.
pub fn breach(at: At, sight: SightId, rule: Rule) -> Breach
    ensures { result ≡ breach_by at sight rule }
{
    Breach {
        at,
        sight,
        rule,
        phase: 2,
    }
}

/// The breach of a rule by an event of a lane, as the fault of a step.
pub fn broken(at: At, sight: SightId, rule: Rule) -> LaneFault
    ensures { result ≡ Broken (breach_by at sight rule) }
{
    LaneFault::Broken(breach(at, sight, rule))
}
