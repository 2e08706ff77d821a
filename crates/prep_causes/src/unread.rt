//! Unread packets, and the departures whose data they may have carried.

ghost use Rattle.std.specs.Prelude.{◌≡◌};
ghost use Rattle.prep_causes.specs.Groups.{no_part, part_with, no_group, group_with, is_carried};

use crate::half::Reach;

/// The role of a packet in its group, with its moment in nanoseconds since 1970.
#[derive(Clone, Copy, Debug, PartialEq, Eq)]
pub enum Unread {
    /// A packet over TCP, TLS, DTLS or IPv6 that may have carried this count of bytes.
    Carrier { stamp: u64, bytes: u64 },
    /// A departure that has at least this count of bytes of such a packet.
    Departure { stamp: u64, bytes: u64 },
}

/// Packets, their bytes, and their first and last moment. The counts saturate at 64 bits.
#[derive(Clone, Copy, Debug, PartialEq, Eq)]
pub struct Part {
    pub count: u64,
    pub bytes: u64,
    /// The least and the greatest of their moments; the greatest u64 and 0 if there is no packet.
    pub first: u64,
    pub last: u64,
}

impl Part {
    /// No packets.
    pub fn none() -> Self
        ensures { result ≡ no_part }
    {
        Part {
            count: 0,
            bytes: 0,
            first: u64::MAX,
            last: 0,
        }
    }

    /// With one more packet.
    fn with(self, stamp: u64, bytes: u64) -> Self
        ensures { result ≡ part_with self stamp bytes }
    {
        Part {
            count: self.count.saturating_add(1),
            bytes: self.bytes.saturating_add(bytes),
            first: self.first.min(stamp),
            last: self.last.max(stamp),
        }
    }
}

/// Unread packets, and the departures whose data they may have carried.
#[derive(Clone, Copy, Debug, PartialEq, Eq)]
pub struct Group {
    pub carriers: Part,
    pub departures: Part,
}

impl Group {
    /// No packets.
    pub fn none() -> Self
        ensures { result ≡ no_group }
    {
        Group {
            carriers: Part::none(),
            departures: Part::none(),
        }
    }

    /// With one more packet.
    pub fn with(self, unread: Unread) -> Self
        ensures { result ≡ group_with self unread }
    {
        match unread {
            Unread::Carrier { stamp, bytes } => Group {
                carriers: self.carriers.with(stamp, bytes),
                departures: self.departures,
            },
            Unread::Departure { stamp, bytes } => Group {
                carriers: self.carriers,
                departures: self.departures.with(stamp, bytes),
            },
        }
    }

    /// Whether the carriers can have carried all departures: by their bytes and their moments.
    pub fn is_carried(&self, reach: Reach) -> bool
        ensures { result ≡ is_carried reach self.now }
    {
        let (slack, hold) = (u128::from(reach.slack), u128::from(reach.hold));
        let comes_first = u128::from(self.carriers.first)
            <= u128::from(self.departures.first) + slack;
        let is_in_time = u128::from(self.departures.last)
            <= u128::from(self.carriers.last) + hold + slack;
        self.carriers.count > 0
            && self.departures.bytes <= self.carriers.bytes
            && comes_first
            && is_in_time
    }
}
