//! Why a book refuses a call.

use thiserror::Error;

/// Why a book isn't opened.
#[derive(Clone, Copy, PartialEq, Eq, Debug, Error)]
pub enum BookFault {
    /// O1: there are not 1 to 256 seats.
    #[error("O1 seats")]
    Seats,
    /// O2: memory ran out.
    #[error("O2 memory")]
    Memory,
}

/// Why a finding isn't entered.
#[derive(Clone, Copy, PartialEq, Eq, Debug, Error)]
pub enum EnterFault {
    /// E2: its input isn't the job's input of its lane.
    #[error("E2 stranger")]
    Stranger,
    /// E1: the lane has an entry, at this place.
    #[error("E1 taken at {0}")]
    Taken(u32),
    /// E4: memory ran out.
    #[error("E4 memory")]
    Memory,
}

/// Why a book isn't closed.
#[derive(Clone, Copy, PartialEq, Eq, Debug, Error)]
pub enum CloseFault {
    /// L2: a seat of the book isn't among those passed.
    #[error("L2 seat missing")]
    SeatMissing,
    /// L1: the history of a seat differs from the seat's receipts.
    #[error("L1 astray")]
    Astray,
}

/// L1: the entries of a seat, in order, aren't its receipts.
#[derive(Clone, Copy, PartialEq, Eq, Debug, Error)]
#[error("L1 astray")]
pub struct Astray;
