//! When the progress line is drawn, and its text.

ghost use Rattle.std.specs.Prelude.{◌≡◌, ◌+◌, ◌≤◌, nat_le};
ghost use Rattle.host_progress.specs.Drawing.{is_due, is_stale};

use explain_text::Escaped;
use std::alloc::{AllocError, Global};

/// The progress of reading a file.
#[derive(Clone, Copy)]
pub struct Reading {
    /// The number of bytes that were read.
    pub read: u64,
    /// The size of the file in bytes, 0 if it isn't known.
    pub size: u64,
    /// How long it has been read, in milliseconds.
    pub took_ms: u64,
}

/// Whether `later` is at least this number of milliseconds after `earlier`.
fn is_after(earlier: u64, least: u64, later: u64) -> bool
    ensures { result ≡ nat_le (earlier + least) later }
{
    match later.checked_sub(earlier) {
        Some(between) => between >= least,
        None => false,
    }
}

/// Whether the line wasn't drawn for at least a tenth of a second.
fn is_stale(drawn: Option<u64>, now: u64) -> bool
    ensures { result ≡ is_stale drawn now }
{
    match drawn {
        Some(drawn) => is_after(drawn, 100, now),
        None => true,
    }
}

/// Whether the line is to be drawn: the work has taken at least a second since `began`, and the
/// line wasn't drawn for at least a tenth of a second. All times are milliseconds of one clock.
pub fn is_due(began: u64, drawn: Option<u64>, now: u64) -> bool
    ensures { result ≡ is_due began drawn now }
{
    is_after(began, 1000, now) && is_stale(drawn, now)
}

/// The part of a file that is read, in percent.
fn share_of(read: u64, size: u64) -> u64
    ensures { result ≤ 100 }
{
    if size == 0 {
        return 0;
    }
    (read.saturating_mul(100) / size).min(100)
}

/// At most this number of characters of a file's name is drawn, so that the line fits a terminal.
const MOST_OF_NAME: usize = 40;

/// The line: the program, the end of the file's name, the part of it that is read, and how many
/// megabytes are read per second.
pub fn line_of(
    alloc: Global,
    program: &str,
    name: &str,
    reading: Reading,
) -> Result<String, AllocError> {
    let escaped = Escaped {
        bytes: name.as_bytes(),
    };
    let name = format!(in alloc; "{escaped}")?;
    let mut end = String::new(alloc);
    let skipped = name.chars().count().saturating_sub(MOST_OF_NAME);
    for one in name.chars().skip(skipped) {
        end.push(one)?;
    }
    let share = share_of(reading.read, reading.size);
    // bytes in a millisecond are thousands of bytes in a second
    let rate = reading.read / reading.took_ms.max(1) / 1000;
    format!(in alloc; "\r{program}: {end} {share}%, {rate} MB/s\x1b[K")
}
