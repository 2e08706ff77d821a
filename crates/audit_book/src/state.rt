//! The value under the lock.

ghost use Rattle.std.specs.Prelude.{◌≡◌, ◌≢◌, ◌<◌, ◌≤◌, ℕ, IfErr, IfOk, IsTrue, None, OnOk, Some, length, slice_get, vec_capacity, vec_len};
ghost use Rattle.audit_model.specs.declared.certificate.TheConstants.{MAX_LANES};
ghost use Rattle.audit_lane.specs.Judged.{IsOf};
ghost use Rattle.audit_book.specs.Machine.{IsState, after_claim, entered, next_lane, opening, place_of};
ghost use Rattle.audit_book.specs.Faults.{RefusedFor};
ghost use Rattle.audit_book.specs.Seats.{IsHistory, IsSeen, IsTold, Place, receipt, receipts_of, with_receipt};

use crate::audit::Audit;
use crate::closed::Closed;
use crate::faults::{Astray, EnterFault};
use crate::matching::{agrees, count_claims};
use crate::seat::{Receipt, Seat};
use audit_lane::{Finding, count_broken, least_breach};
use audit_model::Breach;
use std::alloc::{AllocError, Global};
use std::marker::{Model, PhantomData};
use std::sync::ledger;
use std::sync::ledger::Share;

/// The result of a look.
#[derive(Clone, Copy, PartialEq, Eq, Debug)]
pub struct View {
    /// The number of findings that were entered.
    pub entered: u32,
    /// The number of them by the seat that looks.
    pub mine: u32,
    /// The number of them of broken lanes.
    pub breaches: u32,
    /// The breach of these that is reported.
    pub least: Option<Breach>,
}

/// The history of a book: the claimant of each lane, and each entry with its seat and the number of
/// claims before it. It is under the lock.
#[derive(Drop)]
pub struct BookState<'a, E: Audit> {
    lanes: u32,
    /// For each lane the place of its entry, so that it is found in constant time.
    places: Vec<Option<u32>>,
    /// For each claimed lane its seat, with capacity for all lanes.
    claimants: Vec<u32>,
    /// For each entry its seat, its finding, and the number of claims before it.
    seats: Vec<u32>,
    findings: Vec<Finding<'a>>,
    befores: Vec<u32>,
    /// The ledger, whose total is the number of entries.
    entries: ledger::Book<E>,
}

impl<'a, E: Audit> Model for BookState<'a, E> {
    ghost use Rattle.std.specs.Prelude.{vec_capacity};
    ghost use Rattle.audit_book.specs.Machine.{State};
    ghost use Rattle.audit_book.specs.Kept.{columns, IsKept};

    ghost Value = { State };

    ghost view = { λ s. columns s.claimants.items s.seats.items s.findings.items s.befores.items };

    ghost invariant = { λ s. IsKept E.inputs E.parts s.lanes (vec_capacity s.claimants) s.places.items s.claimants.items s.seats.items s.findings.items s.befores.items s.entries.total };
}

impl<'a, E: Audit> BookState<'a, E> {
    /// The history without events. It takes time and memory in the lanes.
    pub(crate) fn open(
        alloc: Global,
        lanes: u32,
        entries: ledger::Book<E>,
    ) -> Result<BookState<'a, E>, AllocError>
        requires lanes { (lanes ≡ length E.inputs) × (lanes ≤ MAX_LANES) }
        requires none { entries.total ≡ 0 }
        ensures { IfOk result (λ s. s ≡ opening) }
    {
        let claimants = Vec::with_capacity(alloc, lanes as usize)?;
        let places = vec![in alloc; None::<u32>; lanes as usize]?;
        Ok(BookState {
            lanes,
            places,
            claimants,
            seats: Vec::new(alloc),
            findings: Vec::new(alloc),
            befores: Vec::new(alloc),
            entries,
        })
    }

    /// Enters a finding of the job if its lane has no entry: the event `enter`, or `refused` if
    /// memory runs out. It takes constant time.
    pub fn enter(
        &mut self,
        seat: &mut Seat<E>,
        finding: Finding<'a>,
    ) -> Result<Receipt, (Finding<'a>, EnterFault)>
        requires { IsOf E.inputs finding }
        ensures kept { IsState E.inputs E.parts self.new }
        ensures ok { IfOk result (λ r. (place_of finding.entry.input.number self.old.entries ≡ None) × (self.new ≡ entered self.old seat.old.number finding.entry) × (r ≡ receipt finding.entry.input.number (length self.old.entries) seat.old.number) × (seat.new ≡ with_receipt seat.old r)) }
        ensures err { IfErr result (λ e. (self.new ≡ self.old) × (seat.new ≡ seat.old) × (e.0 ≡ finding.entry) × RefusedFor self.old finding.entry.input.number e.1) }
    {
        let lane = finding.input().number();
        if let Some(place) = self.places[lane as usize] {
            return Err((finding, EnterFault::Taken(place)));
        }
        if room(
            &mut self.findings,
            &mut self.seats,
            &mut self.befores,
            &mut seat.receipts,
        )
        .is_err()
        {
            return Err((finding, EnterFault::Memory));
        }
        let receipt = Receipt {
            lane,
            place: self.findings.len() as u32,
            seat: seat.number,
        };
        let before = self.claimants.len() as u32;
        self.findings.push_reserved(finding);
        self.seats.push_reserved(seat.number);
        self.befores.push_reserved(before);
        self.places[lane as usize] = Some(receipt.place);
        self.entries.add(&mut seat.share, 1);
        seat.receipts.push_reserved(receipt);
        Ok(receipt)
    }

    /// The view of the entries: the event `look`. It takes time in the entries, and allocates no
    /// memory.
    pub fn look(&self, seat: &Seat<E>) -> Result<View, Astray>
        ensures kept { IsState E.inputs E.parts self.now }
        ensures ok { IfOk result (λ v. (seat.now.receipts ≡ receipts_of seat.now.number self.now.entries) × IsSeen seat.now.number self.now.entries v) }
        ensures astray { IfErr result (λ _. seat.now.receipts ≢ receipts_of seat.now.number self.now.entries) }
    {
        if !agrees(
            self.findings.as_slice(),
            self.seats.as_slice(),
            seat.number,
            seat.receipts.as_slice(),
        ) {
            return Err(Astray);
        }
        Ok(View {
            entered: self.findings.len() as u32,
            mine: seat.receipts.len() as u32,
            breaches: count_broken(self.findings.as_slice()) as u32,
            least: least_breach(self.findings.as_slice()),
        })
    }

    /// Whether the history has exactly the receipts and the claims of the seat. It takes time in
    /// the entries and claims.
    pub(crate) fn has(&self, seat: &Seat<E>) -> bool
        ensures { IsTrue result → IsTold self.now seat.now }
    {
        agrees(
            self.findings.as_slice(),
            self.seats.as_slice(),
            seat.number,
            seat.receipts.as_slice(),
        ) && count_claims(self.claimants.as_slice(), seat.number) == seat.claims as usize
    }

    /// Whether the history has exactly the receipts and the claims of each of these seats.
    pub(crate) fn has_all(&self, seats: &[Seat<E>]) -> bool
        ensures { IsTrue result → (i : ℕ) (p : Place) → slice_get seats.now i ≡ Some p → IsTold self.now p }
    {
        for seat in seats {
            if !self.has(seat) {
                return false;
            }
        }
        true
    }

    /// The lists of the history. The whole ledger counts its entries.
    pub(crate) fn into_closed(mut self, whole: Share<E>) -> Closed<'a>
        requires { whole.parts ≡ E.parts }
        ensures history { IsHistory E.inputs E.parts self.entry result.claimants.items result.seats.items result.entries.items }
        ensures counted { whole.amount ≡ length result.entries.items }
    {
        let mut whole = whole;
        self.entries.audit(&mut whole);
        let BookState {
            lanes: _,
            places: _,
            claimants,
            seats,
            findings,
            befores: _,
            entries: _,
        } = self;
        Closed {
            entries: findings,
            seats,
            claimants,
            made: PhantomData,
        }
    }

    /// The next lane that no seat claimed: the event `claim`. It takes constant time, and allocates
    /// no memory.
    pub fn claim(&mut self, seat: u32) -> Option<u32>
        requires { seat < E.parts }
        ensures state { self.new ≡ after_claim E.inputs self.old seat }
        ensures kept { IsState E.inputs E.parts self.new }
        ensures lane { result ≡ next_lane E.inputs self.old }
    {
        let lane = self.claimants.len();
        if lane < self.lanes as usize {
            self.claimants.push_reserved(seat);
            Some(lane as u32)
        } else {
            None
        }
    }
}

// Reserves memory for one more of each.
fn room(
    findings: &mut Vec<Finding<'_>>,
    seats: &mut Vec<u32>,
    befores: &mut Vec<u32>,
    receipts: &mut Vec<Receipt>,
) -> Result<(), AllocError>
    ensures same { (findings.new.items ≡ findings.old.items) × (seats.new.items ≡ seats.old.items) × (befores.new.items ≡ befores.old.items) × (receipts.new.items ≡ receipts.old.items) }
    ensures room { OnOk result ((vec_len findings.new < vec_capacity findings.new) × (vec_len seats.new < vec_capacity seats.new) × (vec_len befores.new < vec_capacity befores.new) × (vec_len receipts.new < vec_capacity receipts.new)) }
{
    findings.reserve(1)?;
    seats.reserve(1)?;
    befores.reserve(1)?;
    receipts.reserve(1)
}
