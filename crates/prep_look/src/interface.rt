//! The counts of an interface.

ghost use Rattle.std.specs.Prelude.{◌≡◌, ◌+◌, ◌<◌, ◌^◌, None};

use crate::passed::Passed;
use std::alloc::{AllocError, Global};
use std::collections::BTreeMap;

/// The stamps of an interface's frames, in nanoseconds since 1970.
#[derive(Clone, Copy, Debug, PartialEq, Eq)]
pub(crate) struct Stamps {
    pub(crate) frames: u64,
    /// The least and the greatest; 0 without a frame.
    pub(crate) first: u64,
    pub(crate) last: u64,
    /// How many are less than an earlier one, and the greatest such difference.
    pub(crate) back: u64,
    pub(crate) most: u64,
}

impl Stamps {
    /// No frame.
    pub(crate) fn none() -> Self
        ensures { result.frames ≡ 0 }
    {
        Stamps {
            frames: 0,
            first: 0,
            last: 0,
            back: 0,
            most: 0,
        }
    }

    /// With one more frame.
    pub(crate) fn with(self, stamp: u64) -> Self
        ensures { self.frames + 1 < 2 ^ 64 → result.frames ≡ self.frames + 1 }
    {
        let frames = self.frames.saturating_add(1);
        if self.frames == 0 {
            return Stamps {
                frames,
                first: stamp,
                last: stamp,
                ..self
            };
        }
        let back = u64::from(stamp < self.last);
        Stamps {
            frames,
            first: self.first.min(stamp),
            last: self.last.max(stamp),
            back: self.back.saturating_add(back),
            most: self.most.max(self.last.saturating_sub(stamp)),
        }
    }
}

/// The counts of an interface.
#[derive(Debug, Drop)]
pub(crate) struct Interface {
    /// As in a `SightId`: 64 times the capture's number, plus the interface's number in the
    /// capture.
    pub(crate) number: u32,
    pub(crate) stamps: Stamps,
    /// UDP over IPv4, of the service or not.
    pub(crate) datagrams: u64,
    /// Statistics blocks.
    pub(crate) statistics: u64,
    /// The nanoseconds of a tick of its stamps, if known.
    pub(crate) tick: Option<u64>,
    /// The time at which its last statistics were written; `None` if they don't have it.
    pub(crate) until: Option<u64>,
    /// Frames without such a datagram.
    pub(crate) passed: BTreeMap<Passed, u64>,
}

impl Interface {
    /// Before the first frame. It takes no memory.
    pub(crate) fn new(alloc: Global, number: u32, tick: Option<u64>) -> Self {
        Interface {
            number,
            stamps: Stamps::none(),
            datagrams: 0,
            statistics: 0,
            tick,
            until: None,
            passed: BTreeMap::new(alloc),
        }
    }

    /// Counts a skipped frame.
    pub(crate) fn pass(&mut self, passed: Passed) -> Result<(), AllocError> {
        let count = match self.passed.get(&passed) {
            Some(count) => *count,
            None => 0,
        };
        self.passed.insert(passed, count.saturating_add(1))?;
        Ok(())
    }
}
