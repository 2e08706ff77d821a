//! Moments and durations, in nanoseconds.

use jiff::Timestamp;
use std::fmt;

/// The nanoseconds of a second.
const SECOND: u64 = 1_000_000_000;

/// A moment relative to the first frame of all captures, rounded to the microsecond, as
/// `+301.052340`.
#[derive(Clone, Copy, Debug)]
pub struct Since {
    /// Nanoseconds since 1970.
    pub first: u64,
    /// Nanoseconds since 1970.
    pub moment: u64,
}

/// The same rounded to the tenth of a millisecond, as `+301.0523`.
#[derive(Clone, Copy, Debug)]
pub struct SinceShort {
    /// Nanoseconds since 1970.
    pub first: u64,
    /// Nanoseconds since 1970.
    pub moment: u64,
}

/// The sign of the difference between two moments.
fn sign(first: u64, moment: u64) -> char {
    if moment < first { '-' } else { '+' }
}

impl fmt::Display for Since {
    fn fmt<W: fmt::Write>(&self, f: &mut fmt::Formatter<W>) -> fmt::Result {
        let sign = sign(self.first, self.moment);
        let way = self.moment.abs_diff(self.first).saturating_add(500) / 1_000;
        let seconds = way / 1_000_000;
        let rest = way % 1_000_000;
        write!(f, "{sign}{seconds}.{rest:06}")
    }
}

impl fmt::Display for SinceShort {
    fn fmt<W: fmt::Write>(&self, f: &mut fmt::Formatter<W>) -> fmt::Result {
        let sign = sign(self.first, self.moment);
        let way = self.moment.abs_diff(self.first).saturating_add(50_000) / 100_000;
        let seconds = way / 10_000;
        let rest = way % 10_000;
        write!(f, "{sign}{seconds}.{rest:04}")
    }
}

/// A duration, rounded down to the microsecond, as `0.048987 s`.
#[derive(Clone, Copy, Debug)]
pub struct Exactly {
    pub nanoseconds: u64,
}

impl fmt::Display for Exactly {
    fn fmt<W: fmt::Write>(&self, f: &mut fmt::Formatter<W>) -> fmt::Result {
        let seconds = self.nanoseconds / SECOND;
        let rest = self.nanoseconds % SECOND / 1_000;
        write!(f, "{seconds}.{rest:06} s")
    }
}

/// A duration, rounded to the millisecond, as `0.050 s`.
#[derive(Clone, Copy, Debug)]
pub struct Seconds {
    pub nanoseconds: u64,
}

impl fmt::Display for Seconds {
    fn fmt<W: fmt::Write>(&self, f: &mut fmt::Formatter<W>) -> fmt::Result {
        let length = self.nanoseconds.saturating_add(500_000) / 1_000_000;
        let seconds = length / 1_000;
        let rest = length % 1_000;
        write!(f, "{seconds}.{rest:03} s")
    }
}

/// A moment by the calendar, to the second, as `2026-11-22T11:20:31Z`.
#[derive(Clone, Copy, Debug)]
pub struct Utc {
    /// Nanoseconds since 1970.
    pub moment: u64,
}

impl fmt::Display for Utc {
    fn fmt<W: fmt::Write>(&self, f: &mut fmt::Formatter<W>) -> fmt::Result {
        let second = self.moment / SECOND;
        match Timestamp::from_second(second as i64) {
            Ok(stamp) => write!(f, "{stamp}"),
            Err(_) => write!(f, "{second} s since 1970"),
        }
    }
}
