//! Reads IPv4 headers.

ghost use Rattle.std.specs.Prelude.{◌≡◌, ◌+◌, ◌<◌, ◌≤◌, length, IfSome, IfNone};
ghost use Rattle.audit_packets.specs.Frame.{ipv4_at, carries_udp};

use crate::numbers::{LEAST_HEADER, UDP_PROTOCOL};

/// The fields of an IPv4 header (RFC 791, section 3.1) that a UDP datagram needs.
#[derive(Clone, Copy, Debug)]
pub(crate) struct Ipv4 {
    pub(crate) version: u8,
    /// Bytes of the header, options included.
    pub(crate) header_length: usize,
    /// Bytes of the header and what follows it.
    pub(crate) total_length: usize,
    pub(crate) is_fragment: bool,
    pub(crate) protocol: u8,
    pub(crate) from: u32,
    pub(crate) to: u32,
}

impl Ipv4 {
    ghost use Rattle.audit_packets.specs.Headers.{ipv4_of};

    /// The header at this place of the frame. None if the frame ends within its first twenty bytes.
    pub(crate) fn read(frame: &[u8], at: usize) -> Option<Ipv4>
        requires { at ≤ 22 }
        ensures none { IfNone result (length frame.now < at + 20) }
        ensures long { IfSome result (λ _. at + 20 ≤ length frame.now) }
        ensures fields { IfSome result (λ header. ipv4_of header ≡ ipv4_at frame.now at) }
        ensures short { IfSome result (λ header. header.header_length ≤ 60) }
    {
        if frame.len() < at + LEAST_HEADER {
            return None;
        }
        let header = &frame[at..at + LEAST_HEADER];
        let fragment = u16::from_be_bytes([header[6], header[7]]);
        Some(Ipv4 {
            version: header[0] >> 4,
            header_length: (header[0] & 0x0F) as usize * 4,
            total_length: u16::from_be_bytes([header[2], header[3]]) as usize,
            // the flag "more fragments" and the offset
            is_fragment: fragment & 0x3FFF != 0,
            protocol: header[9],
            from: u32::from_be_bytes([header[12], header[13], header[14], header[15]]),
            to: u32::from_be_bytes([header[16], header[17], header[18], header[19]]),
        })
    }

    /// Whether this is a header of version 4, with lengths that agree, and UDP follows it.
    pub(crate) fn carries_udp(&self) -> bool
        ensures { result ≡ carries_udp (ipv4_of self.now) }
    {
        self.version == 4
            && self.header_length >= LEAST_HEADER
            && self.total_length >= self.header_length
            && self.protocol == UDP_PROTOCOL
    }
}
