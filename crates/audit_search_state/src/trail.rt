//! The steps of a lane's search that can be undone.

use crate::pool_ref::PoolRef;
use crate::progress::Progress;
use audit_rules::LaneTable;
use audit_seen::SeenNumber;
use std::alloc::{AllocError, Global};
use std::collections::VecDeque;

/// The undoing of one step.
#[derive(Drop)]
pub(crate) enum Undo {
    /// The progress of the acts before.
    Progress(Progress),
    /// The table before.
    Table(LaneTable),
    /// A table ended.
    Ended,
    /// A table that had ended, as it was before.
    Previous(usize, LaneTable),
    /// A departure was acted on by an arrival.
    Acted(SeenNumber, SeenNumber),
    /// The place of the first arrival of a pool that may have been unused.
    First(PoolRef, Option<usize>),
}

impl Undo {
    fn is_end(&self) -> bool {
        matches!(self, Undo::Ended)
    }
}

/// A step, and its approximate memory.
#[derive(Drop)]
struct Noted {
    undo: Undo,
    weight: u64,
}

/// Steps in order, of which the oldest may be forgotten.
#[derive(Drop)]
pub(crate) struct Trail {
    steps: VecDeque<Noted>,
    /// How many are forgotten.
    forgotten: usize,
    /// How many of them ended a table.
    ends: usize,
    weight: u64,
}

impl Trail {
    /// No steps. It takes no memory.
    pub(crate) fn new(alloc: Global) -> Trail {
        Trail {
            steps: VecDeque::new(alloc),
            forgotten: 0,
            ends: 0,
            weight: 0,
        }
    }

    /// The number of steps so far.
    pub(crate) fn mark(&self) -> usize {
        self.forgotten.saturating_add(self.steps.len())
    }

    /// How many steps ended a table.
    pub(crate) fn ends(&self) -> usize {
        self.ends
    }

    pub(crate) fn weight(&self) -> u64 {
        self.weight
    }

    pub(crate) fn push(&mut self, undo: Undo, weight: u64) -> Result<(), AllocError> {
        if undo.is_end() {
            self.ends = self.ends.saturating_add(1);
        }
        self.weight = self.weight.saturating_add(weight);
        self.steps.push_back(Noted { undo, weight })?;
        Ok(())
    }

    /// Takes the last step out.
    pub(crate) fn pop(&mut self) -> Option<Undo> {
        let noted = self.steps.pop_back()?;
        self.uncount(&noted);
        Some(noted.undo)
    }

    fn uncount(&mut self, noted: &Noted) {
        if noted.undo.is_end() {
            self.ends = self.ends.saturating_sub(1);
        }
        self.weight = self.weight.saturating_sub(noted.weight);
    }

    /// Forgets the steps before a mark.
    pub(crate) fn forget_before(&mut self, mark: usize) {
        for _ in self.forgotten..mark {
            let Some(noted) = self.steps.pop_front() else {
                return;
            };
            self.uncount(&noted);
            self.forgotten = self.forgotten.saturating_add(1);
        }
    }

    /// Forgets all steps.
    pub(crate) fn clear(&mut self) {
        self.steps.clear();
        self.forgotten = 0;
        self.ends = 0;
        self.weight = 0;
    }
}
