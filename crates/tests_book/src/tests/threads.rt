//! Four threads fill a book of 40 lanes.

ghost use Rattle.std.specs.Prelude.{◌≡◌};

use super::lanes::{breach_of, finding, intake, is_of_lane, job};
use audit_book::{Audit, Book, Closed, Receipt, Seat};
use audit_lane::{Job, Outcome};
use audit_model::Breach;
use std::alloc::Global;
use std::marker::Brand;
use std::process::Abort;
use std::sync::ledger::Blank;
use std::sync::{Arc, Wait};
use std::test::Fail;
use std::thread;
use std::thread::Threads;

const LANES: u32 = 40;

const BROKEN: [u32; 3] = [3, 17, 38];

/// The data that the threads share.
#[derive(Drop)]
struct Work<'r, 'w, 'a, E: Audit, R> {
    rt: &'r R,
    alloc: Global,
    book: &'w Book<'a, E>,
    job: &'r Job<'a>,
}

/// A seat, and how many entries of its own it saw when it last looked.
#[derive(Drop)]
struct Worked<E: Audit> {
    seat: Seat<E>,
    mine: u32,
}

impl<'r, 'w, 'a, E: Audit, R: Wait> Work<'r, 'w, 'a, E, R> {
    /// Claims, enters and looks until no lane remains, or a call is refused.
    fn run(&self, mut seat: Seat<E>) -> Worked<E> {
        let mut mine = 0;
        for _ in 0..LANES {
            let Some(seen) = self.enter_next(&mut seat) else {
                break;
            };
            mine = seen;
        }
        Worked { seat, mine }
    }

    /// Enters the next lane. Returns how many of its own entries the seat sees then.
    fn enter_next(&self, seat: &mut Seat<E>) -> Option<u32> {
        let lane = self.book.claim(self.rt, seat)?;
        let finding = finding(self.alloc, self.job, lane).ok()?;
        self.book.enter(self.rt, seat, finding).ok()?;
        let view = self.book.look(self.rt, seat).ok()?;
        Some(view.mine)
    }
}

/// The result of four threads.
#[derive(Drop)]
struct Filled<'a> {
    closed: Closed<'a>,
    receipts: Vec<Receipt>,
    /// For each seat, how many of its own entries it saw last, and how many receipts it has.
    counts: Vec<(u32, usize)>,
}

fn fill<'r, 'a, E: Audit + Send + Sync, R: Threads + Wait + Sync>(
    rt: &'r R,
    alloc: Global,
    job: &'r Arc<Job<'a>>,
    blank: Blank,
) -> Result<Filled<'a>, Fail>
    requires blank { (blank.name ≡ E.name) × (blank.parts ≡ E.parts) × (E.parts ≡ 4) }
    requires named { E.inputs ≡ job.now.value }
{
    let shared = Arc::try_clone(job)?;
    let (book, seats) = Book::<E>::open(alloc, shared, 4, blank)?;
    let work = Work {
        rt,
        alloc,
        book: &book,
        job: &**job,
    };
    let worked = thread::map_vec(rt, seats, &|seat| work.run(seat))?;
    let mut seats = Vec::new(alloc);
    let mut receipts = Vec::new(alloc);
    let mut counts = Vec::new(alloc);
    for Worked { seat, mine } in worked {
        receipts.extend_from_slice(seat.receipts())?;
        counts.push((mine, seat.receipts().len()))?;
        if seats.push(seat).is_err() {
            return Err(Fail::new("memory"));
        }
    }
    let Ok(closed) = book.close(seats) else {
        return Err(Fail::new("not closed with all seats"));
    };
    Ok(Filled {
        closed,
        receipts,
        counts,
    })
}

/// Checks that each lane was entered once, and that each seat saw as many of its own entries as it
/// has receipts.
fn assert_each_once(rt: &impl Abort, filled: &Filled<'_>) {
    let mut times = [0u32; LANES as usize];
    for entry in filled.closed.entries.as_slice() {
        if let Some(times) = times.get_mut(entry.input().number() as usize) {
            *times = times.saturating_add(1);
        }
    }
    assert_eq!(rt;
        (filled.closed.entries.len(), times, filled.counts.len()),
        (40, [1; LANES as usize], 4)
    );
    for (mine, receipts) in filled.counts.as_slice() {
        assert_eq!(rt; *mine as usize, *receipts);
    }
}

/// The breach of the entry at the receipt's index, or `Some(None)`, if the entry is of its lane.
fn entry_of(filled: &Filled<'_>, job: &Job<'_>, receipt: &Receipt) -> Option<Option<Breach>> {
    let entry = filled.closed.at(receipt)?;
    if !is_of_lane(entry, job, receipt.lane) {
        return None;
    }
    match entry.outcome() {
        Outcome::Broken(breach) => Some(Some(*breach)),
        Outcome::Passed(_) => Some(None),
    }
}

/// Checks that each receipt has its finding at its index.
fn assert_receipts(rt: &impl Abort, filled: &Filled<'_>, job: &Job<'_>) {
    assert_eq!(rt; filled.receipts.len(), 40);
    for receipt in filled.receipts.as_slice() {
        let breach = if BROKEN.contains(&receipt.lane) {
            Some(breach_of(receipt.lane))
        } else {
            None
        };
        assert_eq!(rt; entry_of(filled, job, receipt), Some(breach), "{receipt:?}");
    }
}

#[test]
fn four_threads_enter_each_lane_once(rt: HostRuntime) -> Result<(), Fail> {
    let alloc = rt.alloc();
    let intake = intake(alloc)?;
    let job = job(alloc, LANES, 40000, &BROKEN, &intake)?;
    let filled = fill::<Brand, _>(&rt, alloc, &job, Blank::new(4))?;
    assert_each_once(&rt, &filled);
    assert_receipts(&rt, &filled, &job);
    Ok(())
}
