//! The part of the history that is of one seat.

ghost use Rattle.std.specs.Prelude.{◌≡◌, length};
ghost use Rattle.audit_book.specs.Seats.{claims_of, is_receipt, matches};

use crate::seat::Receipt;
use audit_lane::Finding;

/// Whether the receipts are, in order, those that the history has of the seat. It takes time in the
/// entries.
pub fn agrees(findings: &[Finding<'_>], seats: &[u32], seat: u32, receipts: &[Receipt]) -> bool
    requires { length seats.now ≡ length findings.now }
    ensures { result ≡ matches seat 0 seats.now findings.now receipts.now }
{
    let mut mine = 0;
    for i in 0..findings.len() {
        if seats[i] == seat {
            let lane = findings[i].input().number();
            if mine >= receipts.len() || !says(receipts[mine], lane, i, seat) {
                return false;
            }
            mine += 1;
        }
    }
    mine == receipts.len()
}

fn says(receipt: Receipt, lane: u32, place: usize, seat: u32) -> bool
    ensures { result ≡ is_receipt receipt lane place seat }
{
    receipt.lane == lane && receipt.place as usize == place && receipt.seat == seat
}

/// The number of a seat's claims. It takes time in the claims.
pub fn count_claims(claimants: &[u32], seat: u32) -> usize
    ensures { result ≡ claims_of seat claimants.now }
{
    claimants.iter().filter(|w| **w == seat).count()
}
