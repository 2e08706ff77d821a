//! A book is closed when each of its seats is returned.

ghost use Rattle.std.specs.Prelude.{◌≡◌};

use super::books::{
    Deed, FIRST_RECEIPT, Jobs, Opened, Outcome, SECOND_RECEIPT, Step, open_two_seats, play,
};
use super::lanes::{intake, is_of_lane, job};
use audit_book::{Audit, CloseFault, Closed, Receipt};
use audit_lane::Job;
use std::alloc::Global;
use std::marker::Brand;
use std::process::Abort;
use std::sync::ledger::Blank;
use std::sync::{Arc, Wait};
use std::test::Fail;

/// Lane 0 is claimed by seat 1 and entered by seat 0, and lane 1 is entered by seat 1.
static STEPS: [Step; 3] = [
    (false, Deed::Claim, Outcome::Claimed(0)),
    (true, Deed::Enter(0), Outcome::Entered(FIRST_RECEIPT)),
    (false, Deed::Enter(1), Outcome::Entered(SECOND_RECEIPT)),
];

/// The closed book. Seat 0 alone doesn't close it.
fn closed<'a, E: Audit>(alloc: Global, opened: Opened<'a, E>) -> Result<Closed<'a>, Fail> {
    let Opened {
        book,
        first,
        second,
    } = opened;
    let Err((book, mut seats, CloseFault::SeatMissing)) = book.close(Vec::from_array(
        alloc,
        [first],
    )?) else {
        return Err(Fail::new("not refused for want of seat 1"));
    };
    if seats.len() != 1 {
        return Err(Fail::new("seat 0 is not given back"));
    }
    if seats.push(second).is_err() {
        return Err(Fail::new("memory"));
    }
    match book.close(seats) {
        Ok(closed) => Ok(closed),
        Err(_) => Err(Fail::new("not closed with both seats")),
    }
}

/// A new book of the job, closed after these steps.
fn closed_after<'a, E: Audit, R: Wait + Abort>(
    rt: &R,
    alloc: Global,
    job: &Arc<Job<'a>>,
    blank: Blank,
    steps: &[Step],
) -> Result<Closed<'a>, Fail>
    requires blank { (blank.name ≡ E.name) × (blank.parts ≡ E.parts) × (E.parts ≡ 2) }
    requires named { E.inputs ≡ job.now.value }
{
    let mut opened = open_two_seats::<E>(alloc, job, blank)?;
    let jobs = Jobs {
        own: job,
        other: job,
    };
    play(rt, alloc, &mut opened, jobs, steps)?;
    closed(alloc, opened)
}

#[test]
fn a_book_is_closed_with_all_its_seats(rt: HostRuntime) -> Result<(), Fail> {
    let alloc = rt.alloc();
    let intake = intake(alloc)?;
    let job = job(alloc, 2, 40000, &[], &intake)?;
    let closed = closed_after::<Brand, _>(&rt, alloc, &job, Blank::new(2), &STEPS)?;
    assert_eq!(rt;
        (
            closed.entries.len(),
            closed.seats.as_slice(),
            closed.claimants.as_slice()
        ),
        (2, [0, 1].as_slice(), [1].as_slice())
    );
    for (receipt, is_there) in [
        (FIRST_RECEIPT, true),
        (SECOND_RECEIPT, true),
        (
            Receipt {
                place: 1,
                ..FIRST_RECEIPT
            },
            false,
        ),
    ] {
        let entry = closed.at(&receipt);
        let is_found = entry.is_some_and(|entry| is_of_lane(entry, &job, receipt.lane));
        assert_eq!(rt;
            (entry.is_some(), is_found),
            (is_there, is_there),
            "{receipt:?}"
        );
    }
    Ok(())
}
