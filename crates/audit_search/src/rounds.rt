//! Rounds of searches, each with the constraints that the lanes of the previous one needed.

use crate::lane_search::Allowance;
use crate::searching::{search, search_by};
use audit_constraints::{AllSearched, Prepared, Reading, Round, Settling};
use std::alloc::AllocError;
use std::cmp::Reverse;
use std::thread::Threads;

/// The most rounds after each computation of the clocks.
const ROUNDS: u32 = 16;

/// How much work all rounds may do, in addition to that for each sighting. The work of a round is
/// the number of sightings and of the steps of all searches.
const WORK: u64 = 16_000;

/// How much work all rounds may do for each sighting.
const WORK_EACH: u64 = 8;

/// Which part of the work that is left is kept for later turns: one in so many.
const KEPT: u64 = 9;

/// How often the clocks are computed again.
const TURNS: u32 = 3;

/// The score of a round.
#[derive(Clone, Copy, PartialEq, Eq, PartialOrd, Ord)]
struct Score {
    /// The number of lanes that fail: fewer is better.
    faults: Reverse<usize>,
    /// The number of arrivals on which two lanes act and of addresses that two have: fewer is
    /// better.
    shared: Reverse<usize>,
    /// The least moment at which a lane fails: later is better.
    low: u64,
}

/// The best of some rounds.
#[derive(Drop)]
pub struct BestRound {
    round: Round,
    score: Score,
}

/// The rounds so far.
#[derive(Drop)]
struct Climb<'a> {
    reading: &'a Reading<'a>,
    settling: Settling<'a>,
    searched: AllSearched,
    best: Option<BestRound>,
    /// How often the clocks were computed again.
    turn: u32,
    /// How many rounds this turn has left after its first one, and whether the first one is to
    /// come.
    left: u32,
    is_first: bool,
    /// How much work all rounds may still do.
    work: u64,
    /// How much of that is kept for later turns.
    for_later: u64,
    /// How many steps the searches of this turn took so far.
    steps: u64,
    is_over: bool,
}

/// The best of the rounds. They do one part in `share` of the work that they usually may.
pub fn best_round(reading: &Reading<'_>, share: u64) -> Result<BestRound, AllocError> {
    let mut climb = Climb::new(reading, share)?;
    for _ in 0..climb.most() {
        if climb.is_over {
            break;
        }
        let prepared = climb.prepared()?;
        climb.search(&prepared)?;
        climb.take(prepared)?;
    }
    climb.end()
}

/// The same, with lanes searched by at most this number of threads. The round is the same for every
/// number of them.
pub fn best_round_by<R: Threads + Sync>(
    rt: &R,
    workers: u32,
    reading: &Reading<'_>,
    share: u64,
) -> Result<BestRound, AllocError> {
    let mut climb = Climb::new(reading, share)?;
    for _ in 0..climb.most() {
        if climb.is_over {
            break;
        }
        let prepared = climb.prepared()?;
        climb.search_by(rt, workers, &prepared)?;
        climb.take(prepared)?;
    }
    climb.end()
}

impl BestRound {
    fn of(round: Round, reading: &Reading<'_>) -> Result<BestRound, AllocError> {
        let doubles = round.doubles(reading.alloc())?.len();
        let overlaps = round.overlaps(reading)?.len();
        let faults = round.faults();
        let low = faults.iter().map(|failed| failed.fault().low()).min();
        let score = Score {
            faults: Reverse(faults.len()),
            shared: Reverse(doubles.saturating_add(overlaps)),
            low: low.unwrap_or(u64::MAX),
        };
        Ok(BestRound { round, score })
    }

    /// The round.
    pub fn round(&self) -> &Round {
        &self.round
    }

    /// Whether no lane fails, and no two lanes act on the same arrival or have an address at the
    /// same time.
    pub fn is_whole(&self) -> bool {
        self.score.faults == Reverse(0) && self.score.shared == Reverse(0)
    }

    /// Whether no order helps any lane that fails, and nothing else is wrong.
    fn is_hopeless(&self) -> bool {
        let is_shared = self.score.shared != Reverse(0);
        !is_shared
            && self
                .round
                .faults()
                .iter()
                .all(|failed| failed.fault().is_hopeless())
    }

    /// The better one of the two; the older one of two equal ones.
    fn or_older(self, older: Option<BestRound>) -> BestRound {
        match older {
            Some(older) if older.score >= self.score => older,
            _ => self,
        }
    }
}

impl<'a> Climb<'a> {
    fn new(reading: &'a Reading<'a>, share: u64) -> Result<Climb<'a>, AllocError> {
        let count = reading.sights().as_slice().len() as u64;
        let work = count.saturating_mul(WORK_EACH).saturating_add(WORK) / share.max(1);
        Ok(Climb {
            reading,
            settling: Settling::new(reading)?,
            searched: AllSearched::new(reading.alloc()),
            best: None,
            turn: 0,
            left: ROUNDS,
            is_first: true,
            work,
            for_later: work / KEPT,
            steps: 0,
            is_over: false,
        })
    }

    /// The most rounds.
    fn most(&self) -> u32 {
        ROUNDS
            .saturating_add(1)
            .saturating_mul(TURNS.saturating_add(1))
    }

    /// The input of the next round's searches.
    fn prepared(&self) -> Result<Prepared, AllocError> {
        self.settling.prepared()
    }

    fn search(&mut self, prepared: &Prepared) -> Result<(), AllocError> {
        let allowance = self.allowance();
        let input = self.settling.input(prepared);
        search(&mut self.searched, &input, allowance)
    }

    fn search_by<R: Threads + Sync>(
        &mut self,
        rt: &R,
        workers: u32,
        prepared: &Prepared,
    ) -> Result<(), AllocError> {
        let allowance = self.allowance();
        let input = self.settling.input(prepared);
        search_by(rt, workers, &mut self.searched, &input, allowance)
    }

    /// How many steps each lane has in the next round.
    fn allowance(&self) -> Allowance {
        Allowance::of(self.work, self.reading.lanes(), self.sightings())
    }

    fn sightings(&self) -> usize {
        self.reading.sights().as_slice().len()
    }

    /// Subtracts the work of a round from what is left.
    fn count_work(&mut self) {
        let steps = self.searched.steps();
        let work = steps
            .saturating_sub(self.steps)
            .saturating_add(self.sightings() as u64);
        self.work = self.work.saturating_sub(work);
        self.steps = steps;
    }

    /// Records a round whose lanes are searched, and adds their constraints for the next one.
    fn take(&mut self, prepared: Prepared) -> Result<(), AllocError> {
        let alloc = self.reading.alloc();
        self.count_work();
        let round = prepared.round(alloc, &self.searched)?;
        if !self.is_first {
            self.settling.settle(&round)?;
        }
        self.is_first = false;
        let is_more = self.settling.add_constraints(&round)?;
        let best = BestRound::of(round, self.reading)?.or_older(self.best.take());
        self.go_on(&best, is_more)?;
        self.best = Some(best);
        Ok(())
    }

    /// Goes to the next round, or to the next turn if lanes need nothing more; ends if nothing is
    /// wrong, or nothing that an order helps, or the work is done.
    fn go_on(&mut self, best: &BestRound, is_more: bool) -> Result<(), AllocError> {
        if best.is_whole() || best.is_hopeless() || self.work == 0 {
            self.is_over = true;
        } else if is_more && self.left > 0 && self.work > self.for_later {
            self.left -= 1;
        } else {
            self.turn_on(&best.round)?;
        }
        Ok(())
    }

    /// Goes to the next turn that changes something; ends if less work is left than a turn's first
    /// round does, which computes all keys and searches all lanes.
    fn turn_on(&mut self, best: &Round) -> Result<(), AllocError> {
        if self.work < (self.sightings() as u64).saturating_mul(2) {
            self.is_over = true;
            return Ok(());
        }
        for turn in self.turn.saturating_add(1)..=TURNS {
            self.turn = turn;
            let is_new = self.settling.shift_clocks(best)?;
            let is_early = turn == TURNS;
            self.settling.set_early(is_early);
            if is_new || is_early {
                return self.start_again();
            }
        }
        self.is_over = true;
        Ok(())
    }

    /// Forgets the constraints, and computes the keys again.
    fn start_again(&mut self) -> Result<(), AllocError> {
        self.searched.clear();
        self.settling.start_again()?;
        self.left = ROUNDS;
        self.is_first = true;
        self.steps = 0;
        self.for_later = if self.turn == TURNS {
            0
        } else {
            self.work / KEPT
        };
        Ok(())
    }

    /// The best of the rounds; fails with `AllocError` if there was none.
    fn end(self) -> Result<BestRound, AllocError> {
        self.best.ok_or(AllocError)
    }
}
