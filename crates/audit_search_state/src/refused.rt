//! Why a departure can't be acted on.

use audit_model::Rule;

/// Why a departure can't be acted on.
#[derive(Clone, Copy, Debug, PartialEq, Eq)]
pub enum Refused {
    /// The act breaks the rule.
    Rule(Rule),
    /// There is no arrival for it.
    NoArrival,
}

impl Refused {
    /// The reason of two refusals by which more can be done.
    pub fn or(self, other: Refused) -> Refused {
        match self {
            Refused::Rule(Rule::NoPermission | Rule::PermissionOver) => self,
            _ => other,
        }
    }
}
