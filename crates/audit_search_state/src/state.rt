//! The state of a lane's search.

ghost use Rattle.std.specs.Prelude.{◌≡◌};

use crate::acted::Acted;
use crate::pool_ref::PoolRef;
use crate::previous::{End, Previous};
use crate::progress::Progress;
use crate::trail::{Trail, Undo};
use audit_model::Addr;
use audit_rules::LaneTable;
use audit_seen::{LaneNumber, SeenNumber};
use std::alloc::{AllocError, Global};
use std::collections::{BTreeMap, BTreeSet, VecDeque};
use std::mem;

/// The table of a lane, the tables that ended, and the acts so far.
#[derive(Drop)]
pub struct State {
    /// The table after the acts so far.
    table: LaneTable,
    /// The tables that ended, except the oldest ones, which are forgotten.
    previous: VecDeque<Previous>,
    /// How many tables are forgotten.
    forgotten: usize,
    /// The progress of the acts.
    progress: Progress,
    acts: BTreeMap<SeenNumber, Acted>,
    used: BTreeSet<SeenNumber>,
    /// The place in each pool of the first arrival that may be unused.
    first: BTreeMap<PoolRef, usize>,
    trail: Trail,
    /// Whether steps are recorded, so that they can be undone.
    is_noting: bool,
}

impl State {
    /// No acts, and an empty table.
    pub fn new(alloc: Global, lane: LaneNumber, client: Addr, listen: Addr) -> State {
        State {
            table: LaneTable::new(lane.value(), client, listen),
            previous: VecDeque::new(alloc),
            forgotten: 0,
            progress: Progress::none(),
            acts: BTreeMap::new(alloc),
            used: BTreeSet::new(alloc),
            first: BTreeMap::new(alloc),
            trail: Trail::new(alloc),
            is_noting: false,
        }
    }

    /// The table after the acts so far.
    pub fn table(&self) -> &LaneTable {
        &self.table
    }

    /// Takes the table out, and puts in another one until it is put back.
    pub fn take_table(&mut self, other: LaneTable) -> LaneTable {
        mem::replace(&mut self.table, other)
    }

    /// Puts the table back.
    pub fn put_table(&mut self, table: LaneTable) {
        self.table = table;
    }

    /// The progress of the acts.
    pub fn progress(&self) -> Progress
        ensures { result ≡ self.now.progress }
    {
        self.progress
    }

    /// The turn of the next act. It isn't undone.
    pub fn take_turn(&mut self) -> u32 {
        self.progress = self.progress.with_act();
        self.progress.turn()
    }

    /// Whether steps are recorded, so that they can be undone.
    pub fn is_noting(&self) -> bool
        ensures { result ≡ self.now.is_noting }
    {
        self.is_noting
    }

    /// Sets whether steps are recorded, and returns whether they were.
    pub fn set_noting(&mut self, is_noting: bool) -> bool
        ensures was { result ≡ self.old.is_noting }
        ensures set { self.new.is_noting ≡ is_noting }
    {
        mem::replace(&mut self.is_noting, is_noting)
    }

    /// The acts, by their departures.
    pub fn acts(&self) -> &BTreeMap<SeenNumber, Acted> {
        &self.acts
    }

    /// Whether a departure is acted on.
    pub fn is_acted(&self, departure: SeenNumber) -> bool {
        self.acts.contains_key(&departure)
    }

    /// Whether an act answers an arrival.
    pub fn is_used(&self, arrival: SeenNumber) -> bool {
        self.used.contains(&arrival)
    }

    /// The place in a pool of the first arrival that may be unused.
    pub fn first(&self, pool: PoolRef) -> usize {
        self.first.get(&pool).copied().unwrap_or(0)
    }

    /// The number of tables that ended.
    pub fn ended(&self) -> usize {
        self.forgotten.saturating_add(self.previous.len())
    }

    /// One of the tables that ended, by its number from 0, unless it is forgotten.
    pub fn previous(&self, which: usize) -> Option<&Previous> {
        self.previous.get(which.checked_sub(self.forgotten)?)
    }

    /// The table that ended last.
    pub fn last_previous(&self) -> Option<&Previous> {
        self.previous.back()
    }

    /// A mark to which `undo` can go back.
    pub fn mark(&self) -> usize {
        self.trail.mark()
    }

    /// The approximate memory of the trail.
    pub fn trail_weight(&self) -> u64 {
        self.trail.weight()
    }

    fn note(&mut self, undo: Undo, weight: u64) -> Result<(), AllocError> {
        if self.is_noting {
            self.trail.push(undo, weight)?;
        }
        Ok(())
    }

    /// Forgets the recorded steps, and records none.
    pub fn forget(&mut self) {
        self.trail.clear();
        self.is_noting = false;
    }

    /// Forgets the recorded steps before a mark.
    pub fn forget_before(&mut self, mark: usize) {
        self.trail.forget_before(mark);
    }

    /// Forgets the oldest tables that ended, except `count` of them and those that `undo` may
    /// restore.
    pub fn keep_previous(&mut self, count: usize) {
        let kept = count.saturating_add(self.trail.ends());
        for _ in kept..self.previous.len() {
            if self.previous.pop_front().is_some() {
                self.forgotten = self.forgotten.saturating_add(1);
            }
        }
    }

    /// Sets that place.
    pub fn set_first(&mut self, pool: PoolRef, place: usize) -> Result<(), AllocError> {
        let before = self.first.insert(pool, place)?;
        self.note(Undo::First(pool, before), 1)
    }

    /// Sets the progress of the acts.
    pub fn set_progress(&mut self, progress: Progress) -> Result<(), AllocError> {
        let before = mem::replace(&mut self.progress, progress);
        self.note(Undo::Progress(before), 1)
    }

    /// Records the table before a change, if it was kept.
    pub fn changed_from(&mut self, before: Option<LaneTable>) -> Result<(), AllocError> {
        let weight = self.progress.weight().saturating_add(1);
        match before {
            Some(before) => self.note(Undo::Table(before), weight),
            None => Ok(()),
        }
    }

    /// Records the table before its end.
    pub fn ended_from(&mut self, previous: Previous) -> Result<(), AllocError> {
        self.previous.push_back(previous)?;
        self.note(Undo::Ended, 1)
    }

    /// The act that ended a table.
    pub fn end_of(&self, which: usize) -> Option<End> {
        Some(self.previous(which)?.end())
    }

    /// Replaces a table that ended, and returns the old one, unless it is forgotten.
    pub fn swap_previous(&mut self, which: usize, table: LaneTable) -> Option<LaneTable> {
        let place = which.checked_sub(self.forgotten)?;
        let previous = self.previous.get_mut(place)?;
        Some(previous.swap_table(table))
    }

    /// Records a table that ended as it was before a change.
    pub fn previous_changed_from(
        &mut self,
        which: usize,
        before: LaneTable,
    ) -> Result<(), AllocError> {
        let weight = self.progress.weight().saturating_add(1);
        self.note(Undo::Previous(which, before), weight)
    }

    /// Records the act that sends a departure.
    pub fn act(&mut self, departure: SeenNumber, acted: Acted) -> Result<(), AllocError> {
        self.acts.insert(departure, acted)?;
        self.used.insert(acted.arrival())?;
        self.note(Undo::Acted(departure, acted.arrival()), 1)
    }

    /// Goes back to a mark.
    pub fn undo(&mut self, mark: usize) {
        for _ in mark..self.trail.mark() {
            if let Some(undo) = self.trail.pop() {
                self.take_back(undo);
            }
        }
    }

    fn take_back(&mut self, undo: Undo) {
        match undo {
            Undo::Progress(progress) => self.progress = progress,
            Undo::Table(table) => self.table = table,
            Undo::Ended => {
                if let Some(previous) = self.previous.pop_back() {
                    self.table = previous.into_table();
                }
            }
            Undo::Previous(which, table) => {
                if let Some(place) = which.checked_sub(self.forgotten) {
                    if let Some(previous) = self.previous.get_mut(place) {
                        let _changed = previous.swap_table(table);
                    }
                }
            }
            Undo::Acted(departure, arrival) => {
                self.acts.remove(&departure);
                self.used.remove(&arrival);
            }
            Undo::First(pool, Some(place)) => {
                if let Some(first) = self.first.get_mut(&pool) {
                    *first = place;
                }
            }
            Undo::First(pool, None) => {
                self.first.remove(&pool);
            }
        }
    }
}

/// The relayed address of the allocation in a table.
pub fn relayed_of(table: &LaneTable) -> Option<Addr> {
    Some(table.running()?.relayed)
}
