//! Whether allocations from before explain a record.

/// Whether a client's allocation from before explains a record.
#[derive(Clone, Copy, Debug, PartialEq, Eq)]
pub(crate) enum StateBefore {
    /// The record needs no such allocation.
    IsNotNeeded,
    /// Only such an allocation can explain it, and one may.
    Explains,
    /// Only such an allocation could explain it, and none may.
    Forbids,
}

impl StateBefore {
    /// The state of a record that only such an allocation can explain.
    pub(crate) fn of(may_explain: bool) -> Self {
        if may_explain {
            StateBefore::Explains
        } else {
            StateBefore::Forbids
        }
    }
}
