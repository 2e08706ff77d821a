//! A packet of a capture.

use audit_model::Listed;
use std::alloc::{AllocError, Global};

/// The content of an Enhanced Packet Block (section 4.3).
#[derive(Debug, Drop)]
pub struct Packet {
    /// Nanoseconds since 1970.
    pub stamp: u64,
    /// The captured bytes.
    pub bytes: Listed<u8>,
    /// The interface's number in the file from 0, counted over all sections.
    pub iface: u32,
    /// The number of bytes that were captured.
    pub captured: u32,
    /// The number of bytes of the packet on the link.
    pub original: u32,
}

impl Packet {
    ghost use Rattle.std.specs.Prelude.{◌≡◌};
    ghost use Rattle.audit_pcapng.specs.Packets.{packet_of};

    /// The packet with borrowed bytes.
    pub fn as_slice(&self) -> PacketSlice<'_>
        ensures { packet_of result ≡ self.now }
    {
        PacketSlice {
            stamp: self.stamp,
            bytes: self.bytes.as_slice(),
            iface: self.iface,
            captured: self.captured,
            original: self.original,
        }
    }
}

/// A packet with borrowed bytes, as in the piece of the capture that was fed.
#[derive(Clone, Copy, Debug)]
pub struct PacketSlice<'a> {
    /// Nanoseconds since 1970.
    pub stamp: u64,
    /// The captured bytes.
    pub bytes: &'a [u8],
    /// The interface's number in the file from 0, counted over all sections.
    pub iface: u32,
    /// The number of bytes that were captured.
    pub captured: u32,
    /// The number of bytes of the packet on the link.
    pub original: u32,
}

impl PacketSlice<'_> {
    ghost use Rattle.std.specs.Prelude.{◌≡◌, IfOk};
    ghost use Rattle.audit_pcapng.specs.Packets.{packet_of};

    /// The packet with a copy of its bytes.
    pub fn to_packet(&self, alloc: Global) -> Result<Packet, AllocError>
        ensures { IfOk result (λ packet. packet ≡ packet_of self.now) }
    {
        Ok(Packet {
            stamp: self.stamp,
            bytes: Listed::from(Vec::from_slice(alloc, self.bytes)?),
            iface: self.iface,
            captured: self.captured,
            original: self.original,
        })
    }
}
