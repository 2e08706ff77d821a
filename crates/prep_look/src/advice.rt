//! The advice of the page.

use crate::granted_address::Alias;
use crate::losses::Losses;
use crate::survey::Closed;
use prep_cut::ReasonKind;
use std::fmt;

/// A line of advice, as data. Interfaces have numbers as in a `SightId`; durations are nanoseconds,
/// and moments nanoseconds since 1970.
#[derive(Clone, Copy, Debug)]
pub enum Advice {
    /// An interface has no statistics.
    NoStatistics {
        interface: u32,
    },
    /// An interface's stamps step back.
    StepsBack {
        interface: u32,
        most: u64,
    },
    /// Fragments of the service: `reassemble`.
    Fragments(u64),
    /// Truncated datagrams of the service.
    Truncated(u64),
    /// Frames that are too long, and ChannelData with more than padding after its data.
    Merged {
        frames: u64,
        channel_data: u64,
    },
    /// The granted address differs from the one on the wire: `translate`.
    Translate(Alias),
    /// Lines by which `cut` excludes something.
    Exclude {
        kind: ReasonKind,
        lines: u64,
    },
    /// Data leaves after deletions: `cut --released-ms`.
    Released(Relaying),
    /// Data leaves one interface before it arrives at the other.
    Clocks {
        arrival: u16,
        departure: u16,
        by: u64,
        skew: u64,
    },
    /// The server takes longer than the policy's hold.
    Hold {
        longest: u64,
    },
    /// Allocations are lost: perhaps a restart.
    Lost(Losses),
    /// A listen address was closed, and then responded again: a restart.
    Restarted(Closed),
    /// A listen address was closed, and nothing left it afterwards.
    Stopped(Closed),
    /// Departures without a cause after the end of an interface.
    Ended(Ended),
}

/// Data that the server relays for clients after its success responses to their Refresh requests
/// with LIFETIME 0. `cut` can exclude it.
#[derive(Clone, Copy, Debug)]
pub struct Relaying {
    /// The number of such success responses.
    pub deletions: u64,
    pub departures: u64,
    /// The longest time from a response to a departure, in nanoseconds.
    pub longest: u64,
}

impl Relaying {
    /// The least number of whole milliseconds that excludes all of it.
    pub fn milliseconds(&self) -> u64 {
        self.longest.div_ceil(1_000_000)
    }
}

/// Departures after the last frame of an interface for which the captures have no arrival.
#[derive(Clone, Copy, Debug)]
pub struct Ended {
    pub interface: u32,
    /// The stamp of its last frame.
    pub end: u64,
    pub departures: u64,
    /// How much longer the last interface was captured, in nanoseconds.
    pub gap: u64,
}
