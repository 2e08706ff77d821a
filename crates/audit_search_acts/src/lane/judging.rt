//! Acts of a lane, judged by the rules.

use super::Lane;
use audit_model::{At, Key};
use audit_rules::{ActFault, CredRow, LaneTable, act};
use audit_search_state::Refused;
use audit_seen::{SeenNumber, Slot};
use std::alloc::AllocError;

impl Lane<'_> {
    /// Judges an act, and changes the table by it; returns the rule that it violates.
    pub(crate) fn judge(
        &mut self,
        table: &mut LaneTable,
        arrival: SeenNumber,
        departure: SeenNumber,
        slot: Slot,
        moment: u64,
    ) -> Result<Option<Refused>, AllocError> {
        let (Some(arrives), Some(leaves)) = (
            self.input.sighting(arrival),
            self.input.sighting(departure),
        ) else {
            return Ok(Some(Refused::NoArrival));
        };
        self.steps = self.steps.saturating_add(1);
        let at = At {
            key: Key {
                moment,
                tie: slot.value(),
            },
            lane: self.number.value(),
            place: 0,
        };
        let alloc = self.input.alloc();
        let policy = self.input.policy();
        // Only responses are judged by users; the user isn't looked up for data.
        let is_response = self
            .input
            .seen(departure)
            .is_some_and(|seen| seen.response_pool().is_some());
        let row = if is_response {
            CredRow::of(self.input.credentials(), arrives.payload.as_slice())
        } else {
            None
        };
        let judged = match row {
            Some(row) => act(alloc, table, &[row], policy, arrives, leaves, at),
            None => act(alloc, table, &[], policy, arrives, leaves, at),
        };
        match judged {
            Ok(_) => Ok(None),
            Err(ActFault::Broken(rule)) => Ok(Some(Refused::Rule(rule))),
            Err(ActFault::Memory) => Err(AllocError),
        }
    }
}
