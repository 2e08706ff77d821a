//! Responses that a constraint places in the allocation that another response granted.

use super::Lane;
use audit_seen::SeenNumber;

impl Lane<'_> {
    /// Whether a response is to be sent in an allocation that isn't made yet.
    pub(crate) fn is_before_its_maker(&self, answer: SeenNumber) -> bool {
        match self.input.constraints().maker_of(answer) {
            Some(maker) => !self.state.is_acted(maker),
            None => false,
        }
    }

    /// Whether a response is to be sent in an allocation that was made when a table ended, or
    /// later.
    pub(crate) fn is_behind_end(&self, answer: SeenNumber, which: usize) -> bool {
        let Some(maker) = self.input.constraints().maker_of(answer) else {
            return false;
        };
        let (Some(acted), Some(end)) = (self.state.acts().get(&maker), self.state.end_of(which))
        else {
            return true;
        };
        !acted.is_before(end)
    }
}
