//! The workers, and the book that they fill.

ghost use Rattle.std.specs.Prelude.{length, ◌≡◌, ◌+◌, ◌<◌, ◌≤◌, IfNone, IfOk, IfSome};
ghost use Rattle.audit_model.specs.declared.certificate.TheConstants.{MAX_LANES};
ghost use Rattle.audit_book.specs.Seats.{with_receipt};
ghost use Rattle.audit_pool.specs.Full.{IsFull, IsHistoryOf};

use crate::gate::Gate;
use audit_book::{Audit, Book, Closed, Receipt, Seat};
use audit_lane::{Job, judge};
use std::alloc::{AllocError, Global};
use std::marker::Brand;
use std::sync::ledger::Blank;
use std::sync::{Arc, Wait};
use std::thread;
use std::thread::Threads;

/// The data that the workers share.
#[derive(Drop)]
struct Work<'r, 'w, 'a, E: Audit, R, G> {
    rt: &'r R,
    alloc: Global,
    book: &'w Book<'a, E>,
    job: &'r Job<'a>,
    gate: &'r G,
    ghost job_is: { job.now ≡ E.inputs },
}

impl<'r, 'w, 'a, E: Audit, R: Wait, G: Gate> Work<'r, 'w, 'a, E, R, G> {
    /// Claims, judges and enters until no lane is left, or memory runs out: of the lanes that it
    /// claims, at most the last has no entry of its own.
    fn run(&self, mut seat: Seat<E>) -> Seat<E>
        ensures number { result.number ≡ seat.number }
        ensures entered { result.claims + length seat.receipts ≤ length result.receipts + seat.claims + 1 }
    {
        'lanes: for _ in 0..self.job.len() {
            let Some(lane) = self.book.claim(self.rt, &mut seat) else {
                return seat;
            };
            if self.judge(lane, &mut seat).is_none() {
                return seat;
            }
        }
        seat
    }

    /// Judges a lane without the lock and enters its finding; none if memory runs out.
    fn judge(&self, lane: u32, seat: &mut Seat<E>) -> Option<Receipt>
        requires { lane < length E.inputs }
        ensures some { IfSome result (λ r. (seat.new ≡ with_receipt seat.old r) × (r.lane ≡ lane)) }
        ensures none { IfNone result (seat.new ≡ seat.old) }
    {
        let Ok(input) = Arc::try_clone(self.job.input(lane)) else {
            return None;
        };
        self.gate.before(lane);
        let finding = judge(self.alloc, input);
        self.gate.after(lane);
        let Ok(finding) = finding else {
            return None;
        };
        self.book.enter_own(self.rt, seat, finding).ok()
    }
}

/// The closed book of this many workers. It fails if memory runs out for the book, or for the
/// workers' threads.
fn closed_book<'r, 'a, E: Audit + Send + Sync, R: Threads + Wait + Sync, G: Gate + Sync>(
    rt: &'r R,
    alloc: Global,
    job: &'r Arc<Job<'a>>,
    workers: u32,
    gate: &'r G,
    blank: Blank,
) -> Result<Closed<'a>, AllocError>
    requires workers { (0 < workers) × (workers ≤ 256) }
    requires blank { (blank.name ≡ E.name) × (blank.parts ≡ E.parts) × (E.parts ≡ workers) }
    requires named { (E.inputs ≡ job.now.value) × (E.parts ≡ workers) }
    ensures { IfOk result (λ c. IsHistoryOf E.inputs E.parts c.claimants.items c.seats.items c.entries.items) }
{
    let shared = Arc::try_clone(job)?;
    let Ok((book, seats)) = Book::<E>::open(alloc, shared, workers, blank) else {
        return Err(AllocError);
    };
    let work = Work {
        rt,
        alloc,
        book: &book,
        job: &**job,
        gate,
    };
    let seats = thread::map_vec(rt, seats, &|seat| work.run(seat))?;
    let Ok(closed) = book.close(seats) else {
        return Err(AllocError);
    };
    Ok(closed)
}

/// The closed book that 1 to 256 workers filled, each lane judged by one of them. It fails if
/// memory runs out for the book or for a lane.
pub fn full_book<'a, R: Threads + Wait + Sync, G: Gate + Sync>(
    rt: &R,
    alloc: Global,
    job: &Arc<Job<'a>>,
    workers: u32,
    gate: &G,
) -> Result<Closed<'a>, AllocError>
    requires { (0 < workers) × (workers ≤ 256) }
    ensures full { IfOk result (λ c. IsFull job.now.value workers c.claimants.items c.seats.items c.entries.items) }
    ensures limit { IfOk result (λ c. length c.entries.items ≤ MAX_LANES) }
{
    let lanes = job.len() as usize;
    let seats = Blank::new(u64::from(workers));
    let closed = closed_book::<Brand, R, G>(rt, alloc, job, workers, gate, seats)?;
    if closed.entries.len() != lanes {
        return Err(AllocError);
    }
    Ok(closed)
}
