//! The seat of one thread in a book.

ghost use Rattle.std.specs.List.{sum_by};
ghost use Rattle.std.specs.Prelude.{◌≡◌, ◌-◌, ◌<◌, ◌≤◌, ◌^◌, ℕ, IfOk, Some, length, slice_get};
ghost use Rattle.audit_book.specs.Seats.{Place, new_place, with_claim};

use crate::audit::Audit;
use std::alloc::{AllocError, Global};
use std::marker::Model;
use std::sync::ledger::Share;

/// The place of an entry: its lane, its place among the entries, and the seat that entered it.
#[derive(Clone, Copy, PartialEq, Eq, Debug)]
pub struct Receipt {
    pub lane: u32,
    pub place: u32,
    pub seat: u32,
}

/// The seat of one thread in a book: its number, and the receipts of its entries. Only `Book::open`
/// creates one.
#[derive(Drop)]
pub struct Seat<E: Audit> {
    pub(crate) number: u32,
    /// The number of lanes that it claimed.
    pub(crate) claims: u32,
    pub(crate) receipts: Vec<Receipt>,
    /// Its share of the ledger: as much as it has receipts.
    pub(crate) share: Share<E>,
}

impl<E: Audit> Model for Seat<E> {
    ghost use Rattle.audit_book.specs.Seats.{IsSeated, Place};

    ghost Value = { Place };

    ghost view = { λ s. record { number = s.number; claims = s.claims; receipts = s.receipts.items; share = s.share.amount } };

    ghost invariant = { λ s. IsSeated E.parts s.number s.claims s.receipts.items s.share.parts s.share.amount };
}

impl<E: Audit> Seat<E> {
    pub(crate) fn number(&self) -> u32
        ensures is { result ≡ self.now.number }
        ensures below { self.now.number < E.parts }
    {
        self.number
    }

    pub(crate) fn claims(&self) -> u32
        ensures { result ≡ self.now.claims }
    {
        self.claims
    }

    pub(crate) fn count_claim(&mut self)
        requires { self.old.claims < 2 ^ 32 - 1 }
        ensures { self.new ≡ with_claim self.old }
    {
        self.claims += 1;
    }

    /// The receipts of its entries, in order.
    pub fn receipts(&self) -> &[Receipt]
        ensures { result.now ≡ self.now.receipts }
    {
        self.receipts.as_slice()
    }

    fn into_share(self) -> Share<E>
        ensures parts { result.parts ≡ 1 }
        ensures amount { result.amount ≡ length self.receipts }
        ensures below { self.number < E.parts }
    {
        self.share
    }

    /// The whole ledger, from the shares of all seats.
    pub(crate) fn join(seats: Vec<Seat<E>>) -> Share<E>
        requires { 0 < length seats.items }
        ensures parts { result.parts ≡ length seats.items }
        ensures few { result.parts ≤ E.parts }
        ensures amount { result.amount ≡ sum_by (λ p. length p.receipts) seats.items }
    {
        let mut seats = seats;
        let mut whole = seats.pop().unwrap().into_share();
        'seats: while let Some(seat) = seats.pop() {
            whole.merge(seat.into_share());
        }
        whole
    }

    /// This number of seats, each with its share of the ledger.
    pub(crate) fn cut(
        alloc: Global,
        seats: u32,
        share: Share<E>,
    ) -> Result<Vec<Seat<E>>, AllocError>
        requires parts { share.parts ≡ seats }
        requires amount { share.amount ≡ 0 }
        requires seats { E.parts ≡ seats }
        ensures len { IfOk result (λ v. length v.items ≡ seats) }
        ensures new { IfOk result (λ v. (i : ℕ) (p : Place) → slice_get v.items i ≡ Some p → p ≡ new_place i) }
    {
        let mut share = share;
        let mut all = Vec::new(alloc);
        for number in 0..seats {
            all.push(Seat::new(alloc, number, share.split_off(1, 0)))?;
        }
        Ok(all)
    }

    fn new(alloc: Global, number: u32, share: Share<E>) -> Seat<E>
        requires below { number < E.parts }
        requires share { (share.parts ≡ 1) × (share.amount ≡ 0) }
        ensures { result ≡ new_place number }
    {
        Seat {
            number,
            claims: 0,
            receipts: Vec::new(alloc),
            share,
        }
    }
}
