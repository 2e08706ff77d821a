//! Pending responses that may help if a rule refuses an act.

use super::Lane;
use audit_search_input::{helps, names, peer_of};
use audit_search_state::Refused;
use audit_seen::{Content, SeenNumber, Slot};
use std::alloc::AllocError;

impl Lane<'_> {
    /// The responses after a departure that change the table, aren't sent yet, and leave within the
    /// hold of it.
    pub(crate) fn pending_behind(
        &self,
        departure: SeenNumber,
    ) -> Result<Vec<SeenNumber>, AllocError> {
        self.input
            .pending_behind(self.changes.as_slice(), &self.state, departure)
    }

    /// The pending responses that may help an act for the departure that was refused.
    pub(crate) fn pending(
        &mut self,
        departure: SeenNumber,
        refused: Refused,
    ) -> Result<Vec<SeenNumber>, AllocError> {
        let peer = peer_of(self.input.content(departure));
        let slot = Slot::before(self.input.rank(departure));
        let mut found = Vec::new(self.input.alloc());
        for answer in self.pending_behind(departure)? {
            let Some(content) = self.input.content(answer) else {
                continue;
            };
            if !helps(refused, content) {
                continue;
            }
            let is_grant = matches!(content, Content::Permitted | Content::Bound);
            if let (true, Some(peer)) = (is_grant, peer) {
                let request = self.oldest(answer, slot)?;
                let request = request.and_then(|request| self.input.sighting(request));
                if !request.is_some_and(|request| names(request.payload.as_slice(), peer.ip)) {
                    continue;
                }
            }
            found.push(answer)?;
        }
        Ok(found)
    }
}
