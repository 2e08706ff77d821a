//! Whether there is more than one way to act on a departure.

use super::Lane;
use super::plans::Plan;
use audit_seen::{Content, SeenNumber, Slot};
use std::alloc::AllocError;

impl Lane<'_> {
    /// Whether a departure that changes the table may have been sent before the last table ended,
    /// or after another response that makes or ends an allocation.
    pub fn is_ambiguous(&mut self, departure: SeenNumber) -> Result<bool, AllocError> {
        let Some(content) = self.input.content(departure) else {
            return Ok(false);
        };
        if !content.is_change() {
            return Ok(false);
        }
        let slot = Slot::before(self.input.rank(departure));
        if let (Some(request), Some(previous)) = (
            self.oldest(departure, slot)?,
            self.state.last_previous(),
        ) {
            if previous.end().slot() > Slot::after(self.input.rank(request)) {
                return Ok(true);
            }
        }
        for answer in self.pending_behind(departure)?.iter() {
            let is_end = matches!(
                self.input.content(*answer),
                Some(Content::Allocated { .. } | Content::Deleted)
            );
            if is_end && self.oldest(*answer, slot)?.is_some() {
                return Ok(true);
            }
        }
        Ok(false)
    }

    /// Whether such a departure more likely answers a request before the one that ended the last
    /// table.
    pub fn is_rather_earlier(&mut self, departure: SeenNumber) -> Result<bool, AllocError> {
        match self.input.content(departure) {
            Some(content) => self.is_earlier(departure, content),
            None => Ok(false),
        }
    }

    /// Whether a departure makes or ends an allocation.
    fn is_end(&self, departure: SeenNumber) -> bool {
        matches!(
            self.input.content(departure),
            Some(Content::Allocated { .. } | Content::Deleted)
        )
    }

    /// Whether one of the ways to act on a departure makes or ends an allocation.
    pub fn is_of_end(&self, departure: SeenNumber, plans: &[Plan]) -> bool {
        if self.is_end(departure) {
            return true;
        }
        for plan in plans {
            if let Plan::Behind(draw) = plan {
                if draw.iter().any(|answer| self.is_end(*answer)) {
                    return true;
                }
            }
        }
        false
    }
}
