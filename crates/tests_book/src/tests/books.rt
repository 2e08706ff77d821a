//! Claims, entries and looks in a book of two lanes and two seats.

ghost use Rattle.std.specs.Prelude.{◌≡◌};

use super::lanes::{BREACH_OF_0, finding, intake, is_of_lane, job};
use audit_book::{Audit, Book, BookFault, EnterFault, Receipt, Seat, View};
use audit_lane::Job;
use std::alloc::Global;
use std::marker::Brand;
use std::process::Abort;
use std::sync::ledger::Blank;
use std::sync::{Arc, Wait};
use std::test::Fail;

/// The action of a seat.
#[derive(Clone, Copy)]
pub enum Deed {
    Claim,
    /// Enters the finding of a lane of the book.
    Enter(u32),
    /// Enters the finding of a lane of another client.
    EnterStranger(u32),
    Look,
}

/// The result of an action.
#[derive(Clone, Copy, Debug, PartialEq, Eq)]
pub enum Outcome {
    Claimed(u32),
    AllClaimed,
    Entered(Receipt),
    /// A finding is returned, and why.
    Refused(EnterFault),
    /// Another finding is returned than was to be entered.
    Mixed,
    Seen(View),
    Astray,
}

/// Enters a finding of a job's lane, or gets it back.
fn outcome_of_entry<'a, E: Audit, R: Wait>(
    rt: &R,
    alloc: Global,
    book: &Book<'a, E>,
    seat: &mut Seat<E>,
    job: &Job<'a>,
    lane: u32,
) -> Result<Outcome, Fail> {
    Ok(match book.enter(rt, seat, finding(alloc, job, lane)?) {
        Ok(receipt) => Outcome::Entered(receipt),
        Err((back, fault)) if is_of_lane(&back, job, lane) => Outcome::Refused(fault),
        Err(_) => Outcome::Mixed,
    })
}

/// The book's own job, and that of another client.
#[derive(Clone, Copy)]
pub struct Jobs<'r, 'a> {
    pub own: &'r Job<'a>,
    pub other: &'r Job<'a>,
}

fn outcome_of<'a, E: Audit, R: Wait>(
    rt: &R,
    alloc: Global,
    book: &Book<'a, E>,
    seat: &mut Seat<E>,
    jobs: Jobs<'_, 'a>,
    deed: Deed,
) -> Result<Outcome, Fail> {
    Ok(match deed {
        Deed::Claim => match book.claim(rt, seat) {
            Some(lane) => Outcome::Claimed(lane),
            None => Outcome::AllClaimed,
        },
        Deed::Enter(lane) => outcome_of_entry(rt, alloc, book, seat, jobs.own, lane)?,
        Deed::EnterStranger(lane) => outcome_of_entry(rt, alloc, book, seat, jobs.other, lane)?,
        Deed::Look => match book.look(rt, seat) {
            Ok(view) => Outcome::Seen(view),
            Err(_) => Outcome::Astray,
        },
    })
}

/// A book of two seats, with both.
#[derive(Drop)]
pub struct Opened<'a, E: Audit> {
    pub book: Book<'a, E>,
    pub first: Seat<E>,
    pub second: Seat<E>,
}

pub fn open_two_seats<'a, E: Audit>(
    alloc: Global,
    job: &Arc<Job<'a>>,
    blank: Blank,
) -> Result<Opened<'a, E>, Fail>
    requires blank { (blank.name ≡ E.name) × (blank.parts ≡ E.parts) × (E.parts ≡ 2) }
    requires named { E.inputs ≡ job.now.value }
{
    let (book, mut seats) = Book::<E>::open(alloc, Arc::try_clone(job)?, 2, blank)?;
    let second = seats.pop().ok_or("seat 1")?;
    let first = seats.pop().ok_or("seat 0")?;
    Ok(Opened {
        book,
        first,
        second,
    })
}

/// The action of one of the two seats, the first one if true, and its result.
pub type Step = (bool, Deed, Outcome);

/// Checks that each step has its result.
pub fn play<'a, E: Audit, R: Wait + Abort>(
    rt: &R,
    alloc: Global,
    opened: &mut Opened<'a, E>,
    jobs: Jobs<'_, 'a>,
    steps: &[Step],
) -> Result<(), Fail> {
    for (is_first, deed, outcome) in steps {
        let answer = if *is_first {
            outcome_of(rt, alloc, &opened.book, &mut opened.first, jobs, *deed)?
        } else {
            outcome_of(rt, alloc, &opened.book, &mut opened.second, jobs, *deed)?
        };
        assert_eq!(rt; answer, *outcome);
    }
    Ok(())
}

/// Checks that each step in a new book of the job has its result.
fn play_anew<'a, E: Audit, R: Wait + Abort>(
    rt: &R,
    alloc: Global,
    job: &Arc<Job<'a>>,
    other: &Job<'a>,
    blank: Blank,
    steps: &[Step],
) -> Result<(), Fail>
    requires blank { (blank.name ≡ E.name) × (blank.parts ≡ E.parts) × (E.parts ≡ 2) }
    requires named { E.inputs ≡ job.now.value }
{
    let mut opened = open_two_seats::<E>(alloc, job, blank)?;
    let jobs = Jobs { own: job, other };
    play(rt, alloc, &mut opened, jobs, steps)
}

/// A book in which these lanes are broken, and the steps in it.
#[derive(Clone, Copy)]
struct Row<'a> {
    broken: &'a [u32],
    steps: &'a [Step],
}

pub const FIRST_RECEIPT: Receipt = Receipt {
    lane: 0,
    place: 0,
    seat: 0,
};

pub const SECOND_RECEIPT: Receipt = Receipt {
    lane: 1,
    place: 1,
    seat: 1,
};

const EMPTY: View = View {
    entered: 0,
    mine: 0,
    breaches: 0,
    least: None,
};

static ROWS: [Row<'static>; 4] = [
    // Lanes are claimed in order.
    Row {
        broken: &[],
        steps: &[
            (true, Deed::Claim, Outcome::Claimed(0)),
            (false, Deed::Claim, Outcome::Claimed(1)),
            (true, Deed::Claim, Outcome::AllClaimed),
        ],
    },
    // A lane is entered once.
    Row {
        broken: &[],
        steps: &[
            (true, Deed::Enter(0), Outcome::Entered(FIRST_RECEIPT)),
            (
                false,
                Deed::Enter(0),
                Outcome::Refused(EnterFault::Taken(0)),
            ),
            (
                false,
                Deed::Look,
                Outcome::Seen(View {
                    entered: 1,
                    ..EMPTY
                }),
            ),
            (false, Deed::Enter(1), Outcome::Entered(SECOND_RECEIPT)),
        ],
    },
    // A finding of another client is a stranger.
    Row {
        broken: &[],
        steps: &[
            (
                false,
                Deed::EnterStranger(0),
                Outcome::Refused(EnterFault::Stranger),
            ),
            (false, Deed::Look, Outcome::Seen(EMPTY)),
        ],
    },
    // A look shows the breach of a broken lane.
    Row {
        broken: &[0],
        steps: &[
            (true, Deed::Enter(0), Outcome::Entered(FIRST_RECEIPT)),
            (
                true,
                Deed::Look,
                Outcome::Seen(View {
                    entered: 1,
                    mine: 1,
                    breaches: 1,
                    least: Some(BREACH_OF_0),
                }),
            ),
            (false, Deed::Enter(1), Outcome::Entered(SECOND_RECEIPT)),
            (
                false,
                Deed::Look,
                Outcome::Seen(View {
                    entered: 2,
                    mine: 1,
                    breaches: 1,
                    least: Some(BREACH_OF_0),
                }),
            ),
        ],
    },
];

#[test]
fn books_of_two_seats(rt: HostRuntime) -> Result<(), Fail> {
    let alloc = rt.alloc();
    let intake = intake(alloc)?;
    let other = job(alloc, 2, 40001, &[], &intake)?;
    for Row { broken, steps } in &ROWS {
        let own = job(alloc, 2, 40000, broken, &intake)?;
        play_anew::<Brand, _>(&rt, alloc, &own, &other, Blank::new(2), steps)?;
    }
    Ok(())
}

#[test]
fn there_are_1_to_256_seats(rt: HostRuntime) -> Result<(), Fail> {
    let alloc = rt.alloc();
    let intake = intake(alloc)?;
    let job = job(alloc, 2, 40000, &[], &intake)?;
    for seats in [0, 257] {
        let shared = Arc::try_clone(&job)?;
        let opened = Book::<Brand>::open(alloc, shared, seats, Blank::new(1));
        assert_eq!(rt; opened.err(), Some(BookFault::Seats));
    }
    Ok(())
}
