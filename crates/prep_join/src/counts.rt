//! The numbers of blocks of a capture.

ghost use Rattle.std.specs.Prelude.{◌≡◌};
ghost use Rattle.prep_join.specs.Counted.{no_counts, counted};

use audit_pcapng::BlockKind;

/// The numbers of blocks of some kinds in a capture.
#[derive(Clone, Copy, Debug, PartialEq, Eq)]
pub struct Counts {
    pub interfaces: u64,
    pub packets: u64,
    pub statistics: u64,
}

impl Counts {
    /// No blocks.
    pub fn none() -> Self
        ensures { result ≡ no_counts }
    {
        Counts {
            interfaces: 0,
            packets: 0,
            statistics: 0,
        }
    }

    /// With one more block; the counts saturate at 64 bits.
    pub fn with(self, kind: BlockKind) -> Self
        ensures { result ≡ counted self kind }
    {
        match kind {
            BlockKind::Interface => Counts {
                interfaces: self.interfaces.saturating_add(1),
                packets: self.packets,
                statistics: self.statistics,
            },
            BlockKind::Packet => Counts {
                interfaces: self.interfaces,
                packets: self.packets.saturating_add(1),
                statistics: self.statistics,
            },
            BlockKind::Statistics => Counts {
                interfaces: self.interfaces,
                packets: self.packets,
                statistics: self.statistics.saturating_add(1),
            },
            BlockKind::Section | BlockKind::NoStamp | BlockKind::Other => self,
        }
    }
}
