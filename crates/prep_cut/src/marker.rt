//! Decides which blocks are excluded, and counts them.

ghost use Rattle.std.specs.Prelude.{◌≡◌, ◌<◌, ◌∷◌, ◌++◌, [], ℕ, List, Option, is_none, get_or, length, true, OnOk, IfOk, IfErr};
ghost use Rattle.prep_blocks.specs.declared.block.Block.{Block};
ghost use Rattle.prep_cut.specs.declared.plan.Plan.{Plan};
ghost use Rattle.prep_cut.specs.declared.plan.Proposal.{Proposal};
ghost use Rattle.prep_cut.specs.Datagrams.{datagram_of_block};
ghost use Rattle.prep_cut.specs.Marks.{Marked, marked_by, is_written, proposed_for, behind};
ghost use Rattle.prep_causes.specs.Groups.{no_group};
ghost use Rattle.prep_cut.specs.Pairs.{Notes};
ghost use Rattle.prep_cut.specs.Unread.{owing_with, owes_datagram, group_by, group_of, unread_by};
ghost use Rattle.prep_cut.specs.Tallied.{no_tally, totals_with};
ghost use Rattle.prep_cut.specs.Marking.{AreTallies, IsAt, IsUnbounded, RefusesBlock, tallied_with};

use crate::datagram::{Datagram, datagram_in};
use crate::fault::CutFault;
use crate::half::half_in;
use crate::plan::{LineNumber, Plan, Proposal, cause_in, line_in};
use crate::tallies::Tallies;
use crate::tally::Totals;
use audit_model::Side;
use audit_pcapng::{BlockKind, ByteOrder};
use prep_blocks::{Block, PacketHead};
use prep_causes::CauseNumber;

/// The offset of the section's length in a section block.
const SECTION_LENGTH: usize = 16;

/// The least number of bytes of a section block up to the end of that field.
const SECTION_LENGTH_END: usize = 24;

/// Decides about the blocks of a capture, one after another.
#[derive(Drop)]
pub struct Marker<'p> {
    plan: &'p Plan,
    /// The proposals for the packets that are still to come.
    proposals: &'p [Proposal],
    totals: Totals,
    tallies: Tallies,
}

impl<'p> Marker<'p> {
    /// Before the first block.
    pub fn new(plan: &'p Plan, proposals: &'p [Proposal], tallies: Tallies) -> Self
        ensures { (earlier : List Marked) → AreTallies plan.now earlier tallies →
            IsAt result plan.now proposals.now earlier [] }
    {
        Marker {
            plan,
            proposals,
            totals: Totals::none(),
            tallies,
        }
    }

    /// Decides about the next block, and returns whether it is written.
    pub fn take(&mut self, block: &Block) -> Result<bool, CutFault>
        ensures ok { (plan : Plan) (proposals : List Proposal) (earlier : List Marked) (current : List Block) →
            IsAt self.old plan proposals earlier current → OnOk result (IsAt self.new plan proposals earlier (current ++ block.now ∷ [])) }
        ensures written { IfOk result (λ written. written ≡ is_written (marked_by self.old.plan.now self.old.proposals.now block.now)) }
        ensures err { IfErr result (λ fault. RefusesBlock fault block.now) }
    {
        if block.kind == BlockKind::Section && !is_unbounded(block) {
            return Err(CutFault::SectionLength);
        }
        let proposal = self.next_proposal(block.packet);
        let line = self.plan.line_of(line_in(proposal), block);
        let datagram = datagram_in(&self.plan.policy, block);
        let cause = cause_in(proposal);
        self.note_cause(line, cause, block, datagram);
        self.note_unread(line, cause, block, datagram);
        Ok(self.count(line, block.packet, datagram))
    }

    /// The next proposal, if the block has a packet.
    fn next_proposal(&mut self, packet: Option<PacketHead>) -> Option<Proposal>
        ensures proposal { result ≡ proposed_for packet self.old.proposals.now }
        ensures rest { self.new.proposals.now ≡ behind packet self.old.proposals.now }
        ensures plan { self.new.plan ≡ self.old.plan }
        ensures totals { self.new.totals ≡ self.old.totals }
        ensures tallies { self.new.tallies ≡ self.old.tallies }
    {
        packet?;
        let (first, rest) = self.proposals.split_first()?;
        self.proposals = rest;
        Some(*first)
    }

    /// Records an excluded arrival, or a departure excluded by a line that needs its arrival.
    fn note_cause(
        &mut self,
        line: Option<LineNumber>,
        cause: Option<CauseNumber>,
        block: &Block,
        datagram: Option<Datagram>,
    )
        ensures rest { self.new.proposals ≡ self.old.proposals }
        ensures plan { self.new.plan ≡ self.old.plan }
        ensures totals { self.new.totals ≡ self.old.totals }
        ensures lines { self.new.tallies.lines ≡ self.old.tallies.lines }
        ensures groups { self.new.tallies.groups ≡ self.old.tallies.groups }
        ensures owing { self.new.tallies.owing ≡ self.old.tallies.owing }
        ensures causes { datagram ≡ datagram_of_block self.old.plan.now.policy block.now →
            Notes self.old.plan.now (record { block = block.now; line = line; cause = cause }) self.old.tallies.causes self.new.tallies.causes }
    {
        let (Some(line), Some(number), Some(datagram)) = (line, cause, datagram) else {
            return;
        };
        if number >= self.plan.pairs {
            return;
        }
        if datagram.side == Side::Leaves && !self.plan.needs_cause(line) {
            return;
        }
        if let Some(half) = half_in(&self.plan.policy, block, &datagram) {
            self.tallies.note(number, half);
        }
    }

    /// Counts a departure that needs an arrival or a carrier, and adds a block to its group of
    /// unread packets.
    fn note_unread(
        &mut self,
        line: Option<LineNumber>,
        cause: Option<CauseNumber>,
        block: &Block,
        datagram: Option<Datagram>,
    )
        ensures rest { self.new.proposals ≡ self.old.proposals }
        ensures plan { self.new.plan ≡ self.old.plan }
        ensures totals { self.new.totals ≡ self.old.totals }
        ensures lines { self.new.tallies.lines ≡ self.old.tallies.lines }
        ensures causes { self.new.tallies.causes ≡ self.old.tallies.causes }
        ensures owing { self.new.tallies.owing ≡ owing_with (owes_datagram self.old.plan.now line block.now datagram) self.old.tallies.owing }
        ensures len { length self.new.tallies.groups.groups.items ≡ length self.old.tallies.groups.groups.items }
        ensures groups { (other : ℕ) → other < length self.old.tallies.groups.groups.items →
            get_or self.new.tallies.groups.groups.items other no_group
            ≡ group_by (group_of self.old.plan.now cause) (unread_by self.old.plan.now line block.now block.now.packet datagram) other (get_or self.old.tallies.groups.groups.items other no_group) }
    {
        if self.plan.owes(line, block, datagram) {
            self.tallies.note_owing();
        }
        let Some(group) = self.plan.group_of(cause) else {
            return;
        };
        if let Some(unread) = self.plan.unread_in(line, block, block.packet, datagram) {
            self.tallies.note_unread(group, unread);
        }
    }

    /// Counts a block, and returns whether it is written.
    fn count(
        &mut self,
        line: Option<LineNumber>,
        packet: Option<PacketHead>,
        datagram: Option<Datagram>,
    ) -> bool
        ensures written { result ≡ is_none line }
        ensures rest { self.new.proposals ≡ self.old.proposals }
        ensures plan { self.new.plan ≡ self.old.plan }
        ensures totals { self.new.totals ≡ totals_with self.old.totals (is_none line) packet datagram }
        ensures causes { self.new.tallies.causes ≡ self.old.tallies.causes }
        ensures groups { self.new.tallies.groups ≡ self.old.tallies.groups }
        ensures owing { self.new.tallies.owing ≡ self.old.tallies.owing }
        ensures len { length self.new.tallies.lines.items ≡ length self.old.tallies.lines.items }
        ensures tallies { (other : ℕ) → other < length self.old.tallies.lines.items →
            get_or self.new.tallies.lines.items other no_tally ≡ tallied_with line packet datagram other (get_or self.old.tallies.lines.items other no_tally) }
    {
        self.totals = self.totals.with(line.is_none(), packet, datagram);
        let Some(line) = line else {
            return true;
        };
        self.tallies.add(line as usize, packet, datagram);
        false
    }

    /// The counts.
    pub fn into_parts(self) -> (Totals, Tallies)
        ensures totals { result.0 ≡ self.entry.totals }
        ensures tallies { result.1 ≡ self.entry.tallies }
    {
        (self.totals, self.tallies)
    }
}

/// Whether a section block states no length.
fn is_unbounded(block: &Block) -> bool
    ensures yes { result ≡ true → IsUnbounded block.now }
    ensures no { IsUnbounded block.now → result ≡ true }
{
    let bytes = block.bytes.as_slice();
    bytes.len() >= SECTION_LENGTH_END && block.order.u64_at(bytes, SECTION_LENGTH) == u64::MAX
}
