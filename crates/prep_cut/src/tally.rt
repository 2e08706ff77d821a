//! Counts of excluded packets, and of the datagrams and bytes in them.

ghost use Rattle.std.specs.Prelude.{◌≡◌};
ghost use Rattle.prep_cut.specs.Tallied.{no_count, no_tally, no_totals, counted, counted_both, tallied, tallied_block, tallied_other, totals_with, is_counted};

use crate::datagram::Datagram;
use audit_model::Side;
use prep_blocks::PacketHead;

/// Datagrams, and the bytes of their payloads. The counts saturate at 64 bits.
#[derive(Clone, Copy, Debug, PartialEq, Eq)]
pub struct Count {
    pub datagrams: u64,
    pub bytes: u64,
}

impl Count {
    /// No datagrams.
    pub fn none() -> Self
        ensures { result ≡ no_count }
    {
        Count {
            datagrams: 0,
            bytes: 0,
        }
    }

    /// The sum of two counts.
    pub fn plus(self, other: Count) -> Self
        ensures { result ≡ counted_both self other }
    {
        Count {
            datagrams: self.datagrams.saturating_add(other.datagrams),
            bytes: self.bytes.saturating_add(other.bytes),
        }
    }

    /// With one more datagram, of this size in bytes.
    fn with(self, size: usize) -> Self
        ensures { result ≡ counted self size }
    {
        Count {
            datagrams: self.datagrams.saturating_add(1),
            bytes: self.bytes.saturating_add(size as u64),
        }
    }
}

/// The counts of a line of the list.
#[derive(Clone, Copy, Debug, PartialEq, Eq)]
pub struct Tally {
    pub arrived: Count,
    pub left: Count,
    /// Packets that aren't datagrams of the service: fragments, truncated packets, and packets of
    /// others.
    pub others: u64,
    /// The least and the greatest of their moments; the greatest u64 and 0 if there is no packet.
    pub first: u64,
    pub last: u64,
}

impl Tally {
    /// No packets.
    pub fn none() -> Self
        ensures { result ≡ no_tally }
    {
        Tally {
            arrived: Count::none(),
            left: Count::none(),
            others: 0,
            first: u64::MAX,
            last: 0,
        }
    }

    /// Whether it counts some packet.
    pub fn is_some(&self) -> bool
        ensures { result ≡ is_counted self.now }
    {
        self.arrived.datagrams > 0 || self.left.datagrams > 0 || self.others > 0
    }

    /// With one more datagram.
    pub fn with(self, datagram: &Datagram) -> Self
        ensures { result ≡ tallied self datagram.now }
    {
        let first = self.first.min(datagram.stamp);
        let last = self.last.max(datagram.stamp);
        match datagram.side {
            Side::Arrives => Tally {
                arrived: self.arrived.with(datagram.size),
                left: self.left,
                others: self.others,
                first,
                last,
            },
            Side::Leaves => Tally {
                arrived: self.arrived,
                left: self.left.with(datagram.size),
                others: self.others,
                first,
                last,
            },
        }
    }

    /// With one more packet that isn't a datagram of the service.
    fn with_other(self, stamp: u64) -> Self
        ensures { result ≡ tallied_other self stamp }
    {
        Tally {
            arrived: self.arrived,
            left: self.left,
            others: self.others.saturating_add(1),
            first: self.first.min(stamp),
            last: self.last.max(stamp),
        }
    }

    /// With one more block: its datagram, or else its packet.
    pub(crate) fn with_block(self, packet: Option<PacketHead>, datagram: Option<Datagram>) -> Self
        ensures { result ≡ tallied_block self packet datagram }
    {
        match datagram {
            Some(datagram) => self.with(&datagram),
            None => match packet {
                Some(head) => self.with_other(head.stamp),
                None => self,
            },
        }
    }
}

/// The counts of a capture that was cut.
#[derive(Clone, Copy, Debug, PartialEq, Eq)]
pub struct Totals {
    /// Packets that are written.
    pub written: u64,
    /// Packets that are excluded.
    pub left: u64,
    /// Datagrams with one end in the service that are written.
    pub datagrams: u64,
}

impl Totals {
    /// No blocks.
    pub fn none() -> Self
        ensures { result ≡ no_totals }
    {
        Totals {
            written: 0,
            left: 0,
            datagrams: 0,
        }
    }

    /// With one more block, which is written or not.
    pub fn with(
        self,
        is_written: bool,
        packet: Option<PacketHead>,
        datagram: Option<Datagram>,
    ) -> Self
        ensures { result ≡ totals_with self is_written packet datagram }
    {
        if packet.is_none() {
            return self;
        }
        if !is_written {
            return Totals {
                written: self.written,
                left: self.left.saturating_add(1),
                datagrams: self.datagrams,
            };
        }
        let more = match datagram {
            Some(datagram) if !datagram.is_inside => 1,
            _ => 0,
        };
        Totals {
            written: self.written.saturating_add(1),
            left: self.left,
            datagrams: self.datagrams.saturating_add(more),
        }
    }
}
