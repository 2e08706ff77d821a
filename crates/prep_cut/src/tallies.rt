//! The counts of all lines of a list, and of the departures that need an arrival or a packet that
//! may have carried their data.

ghost use Rattle.std.specs.Prelude.{◌≡◌, ◌<◌, ◌+◌, [], ℕ, List, length, get_or, IfOk};
ghost use Rattle.prep_causes.specs.Adding.{IsAdded};
ghost use Rattle.prep_causes.specs.Groups.{capped, no_group, group_with_at};
ghost use Rattle.prep_causes.specs.Slots.{pairs_in};
ghost use Rattle.prep_cut.specs.declared.plan.Plan.{Plan};
ghost use Rattle.prep_cut.specs.Marking.{AreTallies, carried_of};
ghost use Rattle.prep_cut.specs.Marks.{Marked};
ghost use Rattle.prep_cut.specs.Pairs.{ArePaired};
ghost use Rattle.prep_cut.specs.Unread.{AreCarried, owing_of};
ghost use Rattle.prep_cut.specs.Tallied.{no_tally, tallied_at};

use crate::datagram::Datagram;
use crate::plan::Plan;
use crate::tally::Tally;
use prep_blocks::PacketHead;
use prep_causes::{CauseNumber, Causes, Groups, Half, Unread};
use std::alloc::{AllocError, Global};

/// The tallies of the lines of a list, the departures that are excluded together with their
/// arrivals, and those whose data unread packets may have carried.
#[derive(Debug, Drop)]
pub struct Tallies {
    lines: Vec<Tally>,
    causes: Causes,
    groups: Groups,
    /// Departures excluded by a line that needs one or the other.
    owing: u64,
}

impl Tallies {
    /// For a plan's lines and pairs, and this number of groups of unread packets, before the first
    /// packet.
    pub fn new(alloc: Global, plan: &Plan, groups: usize) -> Result<Self, AllocError>
        ensures { IfOk result (λ tallies. AreTallies plan.now [] tallies) }
    {
        Ok(Tallies {
            lines: vec![in alloc; Tally::none(); plan.lines.len()]?,
            causes: Causes::new(alloc, plan.reach(), plan.pairs as usize)?,
            groups: Groups::new(alloc, groups)?,
            owing: 0,
        })
    }

    /// How many departures are excluded together with their arrivals, by lines that need these. The
    /// cost is the number of pairs.
    pub fn pairs(&self) -> usize
        ensures value { result ≡ pairs_in self.now.causes.slots.items }
        ensures paired { (plan : Plan) (blocks : List Marked) → AreTallies plan blocks self.now → ArePaired plan blocks result }
    {
        self.causes.pairs()
    }

    /// How many excluded departures unread packets may have carried. The cost is the number of
    /// groups.
    pub fn carried(&self) -> u64
        ensures value { result ≡ carried_of self.now }
        ensures carried { (plan : Plan) (blocks : List Marked) → AreTallies plan blocks self.now → AreCarried plan blocks result }
    {
        self.groups.carried(self.causes.reach())
    }

    /// How many excluded departures need an arrival, or a packet that may have carried their data.
    pub fn owing(&self) -> u64
        ensures value { result ≡ self.now.owing }
        ensures owing { (plan : Plan) (blocks : List Marked) → AreTallies plan blocks self.now → result ≡ owing_of plan blocks }
    {
        self.owing
    }

    /// Counts a departure that needs an arrival, or a packet that may have carried its data.
    pub(crate) fn note_owing(&mut self)
        ensures lines { self.new.lines ≡ self.old.lines }
        ensures causes { self.new.causes ≡ self.old.causes }
        ensures groups { self.new.groups ≡ self.old.groups }
        ensures owing { self.new.owing ≡ capped (self.old.owing + 1) }
    {
        self.owing = self.owing.saturating_add(1);
    }

    /// Adds a packet to a group of unread packets.
    pub(crate) fn note_unread(&mut self, number: CauseNumber, unread: Unread)
        ensures lines { self.new.lines ≡ self.old.lines }
        ensures causes { self.new.causes ≡ self.old.causes }
        ensures owing { self.new.owing ≡ self.old.owing }
        ensures len { length self.new.groups.groups.items ≡ length self.old.groups.groups.items }
        ensures groups { (other : ℕ) → other < length self.old.groups.groups.items →
            get_or self.new.groups.groups.items other no_group ≡ group_with_at number unread other (get_or self.old.groups.groups.items other no_group) }
    {
        self.groups.add(number, unread);
    }

    /// Records an excluded arrival or departure.
    pub(crate) fn note(&mut self, number: CauseNumber, half: Half)
        ensures lines { self.new.lines ≡ self.old.lines }
        ensures groups { self.new.groups ≡ self.old.groups }
        ensures owing { self.new.owing ≡ self.old.owing }
        ensures causes { IsAdded self.old.causes number half self.new.causes }
    {
        self.causes.add(number, half);
    }

    /// Each line's tally, in order.
    pub fn as_slice(&self) -> &[Tally]
        ensures { result.now ≡ self.now.lines.items }
    {
        self.lines.as_slice()
    }

    /// Counts a block to a line; to none if no line has that number.
    pub fn add(&mut self, line: usize, packet: Option<PacketHead>, datagram: Option<Datagram>)
        ensures causes { self.new.causes ≡ self.old.causes }
        ensures groups { self.new.groups ≡ self.old.groups }
        ensures owing { self.new.owing ≡ self.old.owing }
        ensures len { length self.new.lines.items ≡ length self.old.lines.items }
        ensures lines { (other : ℕ) → other < length self.old.lines.items →
            get_or self.new.lines.items other no_tally ≡ tallied_at line packet datagram other (get_or self.old.lines.items other no_tally) }
    {
        if line < self.lines.len() {
            self.lines[line] = self.lines[line].with_block(packet, datagram);
        }
    }
}
