//! The plan: which packets are to be excluded.

ghost use Rattle.std.specs.Prelude.{◌≡◌};
ghost use Rattle.prep_cut.specs.Marks.{is_at_edge, line_of, may_leave_at, proposed_line, proposed_cause};
ghost use Rattle.prep_cut.specs.Needing.{needs_cause_at, reach_of};

use crate::allocations::Allocations;
use crate::datagram::datagram_in;
use crate::edge::{last_at_edge, slack_of};
use crate::reason::Reason;
use crate::stated::Stated;
use audit_model::{Listed, Policy};
use prep_blocks::Block;
use prep_causes::{CauseNumber, MaybeNumber, Reach};

/// The number of a line of the list, from 0.
pub type LineNumber = u32;

/// The proposal for a packet, in eight bytes.
#[derive(Clone, Copy, Debug, PartialEq, Eq)]
pub struct Proposal {
    /// The number of the line that excludes it (a `LineNumber`); none if it stays in.
    pub line: MaybeNumber,
    /// The number that a departure and its arrival share (a `CauseNumber`), or the count of such
    /// numbers plus the number of a group of unread packets.
    pub cause: MaybeNumber,
}

/// The proposed line.
pub(crate) fn line_in(proposal: Option<Proposal>) -> Option<LineNumber>
    ensures { result ≡ proposed_line proposal }
{
    proposal?.line.get()
}

/// The proposed number.
pub(crate) fn cause_in(proposal: Option<Proposal>) -> Option<CauseNumber>
    ensures { result ≡ proposed_cause proposal }
{
    proposal?.cause.get()
}

/// The lines of the list, and the facts that they depend on. The proposals for packets are
/// separate, capture by capture.
#[derive(Debug, Drop)]
pub struct Plan {
    pub policy: Policy,
    pub stated: Stated,
    /// The Allocates and leases that the captures show.
    pub allocations: Allocations,
    /// How many numbers departures and arrivals share.
    pub pairs: CauseNumber,
    /// Each line's reason, in the order of the list.
    pub lines: Listed<Reason>,
}

impl Plan {
    /// The line that excludes a block: the proposed one, if the line's reason may exclude the
    /// block's packet.
    pub fn line_of(&self, proposed: Option<LineNumber>, block: &Block) -> Option<LineNumber>
        ensures { result ≡ line_of self.now proposed block.now }
    {
        match proposed {
            None => None,
            Some(line) => {
                if self.may_leave(line, block) {
                    Some(line)
                } else {
                    None
                }
            }
        }
    }

    fn may_leave(&self, line: LineNumber, block: &Block) -> bool
        ensures { result ≡ may_leave_at self.now line block.now }
    {
        let Some(reason) = self.lines.as_slice().get(line as usize) else {
            return false;
        };
        let Some(head) = block.packet else {
            return false;
        };
        let datagram = datagram_in(&self.policy, block);
        self.is_at_edge(reason, head.stamp)
            && self
                .stated
                .may_leave(&self.allocations, reason, head.stamp, datagram)
    }

    /// Whether a departure excluded by a line must have its arrival excluded as well.
    pub(crate) fn needs_cause(&self, line: LineNumber) -> bool
        ensures { result ≡ needs_cause_at self.now line }
    {
        match self.lines.as_slice().get(line as usize) {
            Some(reason) => reason.needs_cause(),
            None => false,
        }
    }

    /// How far a departure may be from its arrival.
    pub(crate) fn reach(&self) -> Reach
        ensures { result ≡ reach_of self.now.policy }
    {
        Reach {
            hold: self.policy.hold,
            slack: slack_of(&self.policy),
        }
    }

    /// Whether `edge` may exclude something at a moment, if that is the reason.
    fn is_at_edge(&self, reason: &Reason, stamp: u64) -> bool
        ensures { result ≡ is_at_edge self.now reason.now stamp }
    {
        match reason {
            Reason::Edge => stamp <= last_at_edge(&self.policy, &self.stated, &self.allocations),
            _ => true,
        }
    }
}
