//! Reads UDP headers.

ghost use Rattle.std.specs.Prelude.{◌≡◌, ◌+◌, ◌<◌, ◌≤◌, length, IfSome, IfNone};
ghost use Rattle.audit_packets.specs.Frame.{udp_at, fits_in};

use crate::ipv4::Ipv4;
use crate::numbers::UDP_HEADER;

/// A UDP header (RFC 768) without its checksum.
#[derive(Clone, Copy, Debug)]
pub(crate) struct Udp {
    pub(crate) from: u16,
    pub(crate) to: u16,
    /// Bytes of this header and the payload.
    pub(crate) length: usize,
}

impl Udp {
    ghost use Rattle.audit_packets.specs.Headers.{ipv4_of, udp_of};

    /// The header at this place of the frame. None if the frame ends within it.
    pub(crate) fn read(frame: &[u8], at: usize) -> Option<Udp>
        requires { at ≤ 82 }
        ensures none { IfNone result (length frame.now < at + 8) }
        ensures long { IfSome result (λ _. at + 8 ≤ length frame.now) }
        ensures fields { IfSome result (λ header. udp_of header ≡ udp_at frame.now at) }
        ensures short { IfSome result (λ header. header.length < 65536) }
    {
        if frame.len() < at + UDP_HEADER {
            return None;
        }
        let header = &frame[at..at + UDP_HEADER];
        Some(Udp {
            from: u16::from_be_bytes([header[0], header[1]]),
            to: u16::from_be_bytes([header[2], header[3]]),
            length: u16::from_be_bytes([header[4], header[5]]) as usize,
        })
    }

    /// Whether header and payload are within the IPv4 datagram.
    pub(crate) fn fits_in(&self, ip: &Ipv4) -> bool
        requires short { self.now.length < 65536 }
        requires header { ip.now.header_length ≤ 60 }
        ensures { result ≡ fits_in (udp_of self.now) (ipv4_of ip.now) }
    {
        ip.total_length >= ip.header_length + UDP_HEADER
            && self.length >= UDP_HEADER
            && ip.total_length >= ip.header_length + self.length
    }
}
