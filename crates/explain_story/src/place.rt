//! Frames and moments, as they are printed.

use crate::case::Case;
use audit_model::{SightId, Sighting};
use explain_frames::{Frame, Frames};
use explain_text::{Datagram, Quoted, Since, SinceShort};
use std::alloc::{AllocError, Global};
use std::fmt;

/// The number of interface numbers for each capture.
pub const INTERFACES: u32 = 64;

/// The context for printing lines: the captures, and the frames that were looked up in them.
#[derive(Clone, Copy)]
pub struct Printer<'a> {
    pub case: Case<'a>,
    pub frames: &'a Frames,
}

/// The number of a frame; a question mark if it isn't known.
#[derive(Clone, Copy)]
pub struct FrameNumber {
    pub frame: Option<Frame>,
}

impl fmt::Display for FrameNumber {
    fn fmt<W: fmt::Write>(&self, f: &mut fmt::Formatter<W>) -> fmt::Result {
        match self.frame {
            Some(frame) => {
                let number = frame.number;
                write!(f, "{number}")
            }
            None => f.write_str("?"),
        }
    }
}

impl<'a> Printer<'a> {
    /// The time of the first frame of all captures, in nanoseconds since 1970.
    pub fn first(&self) -> u64 {
        self.frames.first().unwrap_or(0)
    }

    /// The number of a sighting's frame.
    pub fn number(&self, sight: SightId) -> FrameNumber {
        FrameNumber {
            frame: self.frames.frame(sight),
        }
    }

    /// The name of a sighting's capture, as in the arguments; `None` if there is no capture of its
    /// number.
    pub fn capture_name(&self, sight: SightId) -> Option<&'a str> {
        let name = self.case.captures.get((sight.iface / INTERFACES) as usize)?;
        Some(*name)
    }

    /// The name of a sighting's capture.
    pub fn capture(&self, sight: SightId) -> Quoted<'a> {
        self.capture_of(sight.iface / INTERFACES)
    }

    /// The name of the capture with a number.
    pub fn capture_of(&self, file: u32) -> Quoted<'a> {
        let name = self
            .case
            .captures
            .get(file as usize)
            .copied()
            .unwrap_or("?");
        Quoted {
            bytes: name.as_bytes(),
        }
    }

    /// A moment relative to the first frame.
    pub fn since(&self, moment: u64) -> Since {
        Since {
            first: self.first(),
            moment,
        }
    }

    /// A moment relative to the first frame, in fewer digits.
    pub fn short(&self, moment: u64) -> SinceShort {
        SinceShort {
            first: self.first(),
            moment,
        }
    }

    /// Whether a datagram is between a client and a listen address.
    pub fn is_clients(&self, sighting: &Sighting) -> bool {
        let policy = self.case.intake.policy();
        policy.listens(sighting.from) || policy.listens(sighting.to)
    }

    /// The source and destination of a datagram.
    fn ends(&self, alloc: Global, sighting: &Sighting) -> Result<String, AllocError> {
        let from = sighting.from;
        let to = sighting.to;
        format!(in alloc; "{from} > {to}")
    }

    /// The line of a datagram.
    pub fn datagram_line(&self, alloc: Global, sight: SightId) -> Result<String, AllocError> {
        let iface = sight.iface;
        let index = sight.index;
        let Some(sighting) = self.case.intake.sighting(sight) else {
            return format!(in alloc; "  no datagram is named [{iface}.{index}]\n");
        };
        let place = self.place(alloc, sight)?;
        let ends = self.ends(alloc, sighting)?;
        let what = self.what(alloc, sighting)?;
        let time = self.since(sighting.stamp);
        format!(in alloc; "  {place}  {time}  {ends:<38}  {what:<28}  [{iface}.{index}]\n")
    }

    /// The description of a datagram.
    pub fn what(&self, alloc: Global, sighting: &Sighting) -> Result<String, AllocError> {
        let datagram = Datagram {
            payload: sighting.payload.as_slice(),
            is_clients: self.is_clients(sighting),
        };
        format!(in alloc; "{datagram}")
    }

    /// The capture and the frame of a sighting.
    pub fn place(&self, alloc: Global, sight: SightId) -> Result<String, AllocError> {
        let capture = self.capture(sight);
        let number = self.number(sight);
        format!(in alloc; "{capture} frame {number}")
    }
}
