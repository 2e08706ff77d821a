//! A closed book.

ghost use Rattle.std.specs.Prelude.{◌≡◌, ℕ, MatchOption, vec_len};
ghost use Rattle.audit_lane.specs.Content.{Found};
ghost use Rattle.audit_book.specs.Seats.{IsAt};

use crate::seat::Receipt;
use audit_lane::Finding;
use std::marker::PhantomData;

/// The history of a closed book. Only `Book::close` creates one.
#[derive(Drop)]
pub struct Closed<'a> {
    /// In the order in which they were entered.
    pub entries: Vec<Finding<'a>>,
    /// For each entry, the number of the seat that entered it.
    pub seats: Vec<u32>,
    /// For each claimed lane, the number of the seat that claimed it.
    pub claimants: Vec<u32>,
    pub(crate) made: PhantomData<()>,
    ghost paired: { vec_len seats ≡ vec_len entries },
}

impl<'a> Closed<'a> {
    /// The entry of a receipt, or none if the entry at its place has another lane or another seat.
    /// It takes constant time.
    pub fn at(&self, receipt: &Receipt) -> Option<&Finding<'a>>
        ensures { MatchOption result ((f : Found) → IsAt self.now.entries.items self.now.seats.items receipt.now f → ⊥) (λ f. IsAt self.now.entries.items self.now.seats.items receipt.now f.now) }
    {
        let place = receipt.place as usize;
        let entry = self.entries.get(place)?;
        if entry.input().number() == receipt.lane && self.seats[place] == receipt.seat {
            Some(entry)
        } else {
            None
        }
    }
}
