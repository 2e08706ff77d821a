//! The state of a book after memory was refused. An ordinary run of the tests has enough memory:
//! under `rt try --test --fail-alloc N` the Nth allocation is refused, and then this test must
//! pass, or fail by an error if the lanes got no memory, and by no assertion.

ghost use Rattle.std.specs.Prelude.{◌≡◌};

use super::lanes::{finding, intake, is_of_lane, job};
use audit_book::{Audit, Book, BookFault, EnterFault, Receipt, Seat};
use audit_lane::{Finding, Job};
use std::alloc::{AllocError, Global};
use std::marker::Brand;
use std::process::Abort;
use std::sync::ledger::Blank;
use std::sync::{Arc, Wait};
use std::test::Fail;

/// Enough lanes that each list of the history grows more than once.
const LANES: u32 = 9;

/// Enters a finding of that lane, and again after lack of memory, which returned the finding and
/// left the book and the seat unchanged.
fn entered_again<'a, E: Audit, R: Wait + Abort>(
    rt: &R,
    book: &Book<'a, E>,
    seat: &mut Seat<E>,
    finding: Finding<'a>,
    job: &Job<'a>,
    lane: u32,
) -> Result<Receipt, Fail> {
    let before = book.look(rt, seat);
    let receipts = seat.receipts().len();
    match book.enter(rt, seat, finding) {
        Ok(receipt) => Ok(receipt),
        Err((back, fault)) => {
            assert_eq!(rt; fault, EnterFault::Memory);
            assert!(rt; is_of_lane(&back, job, lane));
            assert_eq!(rt; book.look(rt, seat), before);
            assert_eq!(rt; seat.receipts().len(), receipts);
            match book.enter(rt, seat, back) {
                Ok(receipt) => Ok(receipt),
                Err(_) => Err(Fail::new("the finding is not entered")),
            }
        }
    }
}

/// Returns whether there was memory to open a book; then each finding is entered at its index.
fn fill<'a, E: Audit, R: Wait + Abort>(
    rt: &R,
    alloc: Global,
    job: &Arc<Job<'a>>,
    findings: Vec<Finding<'a>>,
    blank: Blank,
) -> Result<bool, Fail>
    requires blank { (blank.name ≡ E.name) × (blank.parts ≡ E.parts) × (E.parts ≡ 1) }
    requires named { E.inputs ≡ job.now.value }
{
    let shared = Arc::try_clone(job)?;
    let (book, mut seats) = match Book::<E>::open(alloc, shared, 1, blank) {
        Ok(opened) => opened,
        Err(fault) => {
            assert_eq!(rt; fault, BookFault::Memory);
            return Ok(false);
        }
    };
    let mut seat = seats.pop().ok_or("seat 0")?;
    for (lane, finding) in (0..LANES).zip(findings) {
        let receipt = entered_again(rt, &book, &mut seat, finding, job, lane)?;
        assert_eq!(rt;
            (receipt.lane, receipt.place, receipt.seat),
            (lane, lane, 0)
        );
    }
    let seen = book.look(rt, &seat).ok().ok_or("a look")?;
    assert_eq!(rt; (seen.entered, seen.mine), (LANES, LANES));
    Ok(true)
}

/// The finding of each lane of the job.
fn findings<'a>(alloc: Global, job: &Job<'a>) -> Result<Vec<Finding<'a>>, AllocError> {
    let mut findings = Vec::with_capacity(alloc, LANES as usize)?;
    for lane in 0..LANES {
        findings.push(finding(alloc, job, lane)?)?;
    }
    Ok(findings)
}

#[test]
fn a_refused_allocation_leaves_the_book_as_it_was(rt: HostRuntime) -> Result<(), Fail> {
    let alloc = rt.alloc();
    let intake = intake(alloc)?;
    let job = job(alloc, LANES, 40000, &[], &intake)?;
    let first = findings(alloc, &job)?;
    let second = findings(alloc, &job)?;
    if !fill::<Brand, _>(&rt, alloc, &job, first, Blank::new(1))? {
        assert!(rt; fill::<Brand, _>(&rt, alloc, &job, second, Blank::new(1))?);
    }
    Ok(())
}
