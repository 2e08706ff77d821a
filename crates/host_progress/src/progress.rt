//! The progress of reading, and its line.

use crate::drawing::{Reading, is_due, line_of};
use crate::terminal::open_terminal;
use std::alloc::Global;
use std::fs::File;
use std::io::Write;
use std::rt::Files;
use std::sync::atomic::{AtomicU64, Ordering};
use std::time::Clock;

/// Draws a line on standard error while files are read, if that is a terminal and the work takes at
/// least a second. Otherwise it does nothing. Threads may share it: the line is then about the file
/// that was read last.
#[derive(Drop)]
pub struct Progress<'r, R: Files<File = File> + Clock> {
    rt: &'r R,
    alloc: Global,
    program: &'static str,
    /// Standard error, if it is a terminal.
    terminal: Option<File>,
    /// The time at which the first file was begun, and the present one, in milliseconds.
    began: AtomicU64,
    file_began: AtomicU64,
    size: AtomicU64,
    read: AtomicU64,
    /// The time at which the line was last drawn.
    drawn: AtomicU64,
    /// 1 while the line is on the terminal.
    stands: AtomicU64,
}

/// The value for a time that isn't set.
const NEVER: u64 = u64::MAX;

/// The recorded time, if one is set.
fn moment_of(noted: &AtomicU64) -> Option<u64> {
    match noted.load(Ordering::SeqCst) {
        NEVER => None,
        moment => Some(moment),
    }
}

impl<'r, R: Files<File = File> + Clock> Progress<'r, R> {
    /// The progress of a program with this name.
    pub fn new(rt: &'r R, alloc: Global, program: &'static str) -> Self {
        Progress {
            rt,
            alloc,
            program,
            terminal: open_terminal(rt),
            began: AtomicU64::new(NEVER),
            file_began: AtomicU64::new(0),
            size: AtomicU64::new(0),
            read: AtomicU64::new(0),
            drawn: AtomicU64::new(NEVER),
            stands: AtomicU64::new(0),
        }
    }
}

impl<R: Files<File = File> + Clock> Progress<'_, R> {
    /// Begins a file of this size in bytes. The size is 0 if it isn't known.
    pub fn begin(&self, size: u64) {
        let Some(now) = self.now() else {
            return;
        };
        if moment_of(&self.began).is_none() {
            self.began.store(now, Ordering::SeqCst);
        }
        self.file_began.store(now, Ordering::SeqCst);
        self.size.store(size, Ordering::SeqCst);
        self.read.store(0, Ordering::SeqCst);
    }

    /// Adds a number of bytes that were read of the file with this name.
    pub fn advance(&self, name: &str, bytes: usize) {
        let read = self.read.load(Ordering::SeqCst);
        self.read
            .store(read.saturating_add(bytes as u64), Ordering::SeqCst);
        let (Some(now), Some(began)) = (self.now(), moment_of(&self.began)) else {
            return;
        };
        if is_due(began, moment_of(&self.drawn), now) {
            self.draw(name, now);
        }
    }

    /// Removes the line, before something else is written to the terminal.
    pub fn clear(&self) {
        if self.stands.swap(0, Ordering::SeqCst) == 1 {
            self.put(b"\r\x1b[K");
        }
    }

    /// The time of a monotonic clock in milliseconds, if there is a terminal.
    fn now(&self) -> Option<u64> {
        if self.terminal.is_none() {
            return None;
        }
        let Ok(now) = self.rt.monotonic() else {
            return None;
        };
        u64::try_from(now.as_millis()).ok()
    }

    /// Draws the line. Without memory for it, it isn't drawn.
    fn draw(&self, name: &str, now: u64) {
        let reading = Reading {
            read: self.read.load(Ordering::SeqCst),
            size: self.size.load(Ordering::SeqCst),
            took_ms: now.saturating_sub(self.file_began.load(Ordering::SeqCst)),
        };
        if let Ok(line) = line_of(self.alloc, self.program, name, reading) {
            self.put(line.as_bytes());
            self.stands.store(1, Ordering::SeqCst);
            self.drawn.store(now, Ordering::SeqCst);
        }
    }

    /// Writes a text to the terminal. A failure is ignored.
    fn put(&self, text: &[u8]) {
        if let Some(terminal) = &self.terminal {
            let mut terminal = terminal;
            let _ = terminal.write(text);
        }
    }
}
