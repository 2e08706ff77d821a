//! Constraints about the allocation in which permissions and channels were granted.

use super::{EACH, LaneSoFar};
use audit_model::{Addr, Rule};
use audit_search_input::{AHEAD, names, peer_of};
use audit_search_state::{Constraint, Previous, Refused};
use audit_seen::{Content, SeenNumber};
use std::alloc::AllocError;

impl LaneSoFar<'_> {
    /// Adds constraints by which permissions and channels that a departure may need were granted in
    /// the present allocation, not in the previous one.
    pub(crate) fn require_grants_within(
        &self,
        departure: SeenNumber,
        constraints: &mut Vec<Constraint>,
    ) -> Result<(), AllocError> {
        let Some(previous) = self.state.last_previous() else {
            return Ok(());
        };
        let Some((place, maker)) = self.maker_by(previous) else {
            return Ok(());
        };
        let most = constraints.len().saturating_add(EACH.saturating_mul(2));
        let near = self
            .changes
            .get(place.saturating_sub(AHEAD)..)
            .unwrap_or(&[]);
        for (_, answer) in near.iter().take(AHEAD.saturating_mul(2)) {
            if constraints.len() < most && self.may_be_within(*answer, departure, previous) {
                constraints.push(Constraint::Within {
                    answer: *answer,
                    maker,
                })?;
            }
        }
        Ok(())
    }

    /// The response to the request that ended a table, if it made another allocation, and its place
    /// among the changes.
    fn maker_by(&self, previous: &Previous) -> Option<(usize, SeenNumber)> {
        for (place, (_, answer)) in self.changes.iter().enumerate().rev() {
            let is_maker = matches!(self.input.content(*answer), Some(Content::Allocated { .. }));
            let acted = self.state.acts().get(answer);
            if is_maker && acted.is_some_and(|acted| acted.arrival() == previous.end().arrival()) {
                return Some((place, *answer));
            }
        }
        None
    }

    /// Whether a response sent before a table ended may help a departure, and leaves after the
    /// request that ended the table.
    fn may_be_within(
        &self,
        answer: SeenNumber,
        departure: SeenNumber,
        previous: &Previous,
    ) -> bool {
        let Some(acted) = self.state.acts().get(&answer) else {
            return false;
        };
        let peer = peer_of(self.input.content(departure));
        acted.is_before(previous.end())
            && self.input.rank(answer) > self.input.rank(previous.end().arrival())
            && self.grants(answer, acted.arrival(), peer)
    }

    /// Whether a response to a request grants a permission or a channel for a peer. If the peer
    /// isn't known, whether it grants a channel.
    fn grants(&self, answer: SeenNumber, request: SeenNumber, peer: Option<Addr>) -> bool {
        let content = self.input.content(answer);
        let is_channel = matches!(content, Some(Content::Bound));
        let Some(peer) = peer else {
            return is_channel;
        };
        let is_one = is_channel || matches!(content, Some(Content::Permitted));
        match self.input.sighting(request) {
            Some(request) => is_one && names(request.payload.as_slice(), peer.ip),
            None => false,
        }
    }
}

/// Whether a rule requires a permission or a channel of the present allocation.
pub(crate) fn is_of_what_was_granted(refused: Refused) -> bool {
    matches!(
        refused,
        Refused::Rule(
            Rule::NoPermission
                | Rule::PermissionOver
                | Rule::NoChannel
                | Rule::ChannelOver
                | Rule::PeerDiffers
        )
    )
}
