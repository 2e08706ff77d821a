//! Which responses may help if a rule refuses an act.

use super::SearchInput;
use audit_content::names_peer;
use audit_model::{Addr, Rule};
use audit_search_state::{Refused, State};
use audit_seen::{Content, SeenNumber};
use std::alloc::AllocError;

/// How many pending responses are looked at.
pub const AHEAD: usize = 16;

/// Whether a response that changes the table may help if an act was refused.
pub fn helps(refused: Refused, content: Content) -> bool {
    let is_made = matches!(content, Content::Allocated { .. });
    let is_ended = matches!(content, Content::Deleted);
    let is_bound = matches!(content, Content::Bound);
    let is_permitted = matches!(content, Content::Permitted);
    match refused {
        Refused::Rule(Rule::NoAllocation) => is_made,
        Refused::Rule(Rule::AllocationOver) => {
            is_made || matches!(content, Content::Refreshed { .. })
        }
        Refused::Rule(Rule::NoPermission | Rule::PermissionOver) => {
            is_made || is_ended || is_bound || is_permitted
        }
        Refused::Rule(Rule::NoChannel | Rule::ChannelOver | Rule::PeerDiffers)
        | Refused::NoArrival => is_made || is_ended || is_bound,
        Refused::Rule(Rule::AllocationPresent) => is_ended,
        Refused::Rule(
            Rule::ErrorCondition | Rule::OtherUser | Rule::ChannelConflict | Rule::RelayedAddress,
        ) => is_made || is_ended,
        _ => false,
    }
}

/// The peer to which data goes or from which it comes, if the departure names one.
pub fn peer_of(content: Option<Content>) -> Option<Addr> {
    match content {
        Some(Content::Data { peer, .. } | Content::Relayed { peer, .. }) => Some(peer),
        _ => None,
    }
}

/// Whether a request names a peer with this IP address.
pub fn names(payload: &[u8], ip: u32) -> bool {
    names_peer(payload, ip)
}

impl SearchInput<'_> {
    /// The responses of a lane after a departure that change its table, aren't sent yet, and leave
    /// within the hold of it.
    pub fn pending_behind(
        &self,
        changes: &[(u32, SeenNumber)],
        state: &State,
        departure: SeenNumber,
    ) -> Result<Vec<SeenNumber>, AllocError> {
        let rank = self.rank(departure);
        let until = self.held_until(departure);
        let from = changes.partition_point(|change| change.0 <= rank);
        let mut found = Vec::new(self.alloc());
        for (_, answer) in changes.get(from..).unwrap_or(&[]).iter().take(AHEAD) {
            if self.at(*answer) > until {
                break;
            }
            if !state.is_acted(*answer) {
                found.push(*answer)?;
            }
        }
        Ok(found)
    }
}
