//! A capture of one Ethernet interface, as pcapng in little-endian bytes.

ghost use Rattle.std.specs.Prelude.{◌≡◌, ◌≤◌, ◌<◌, ◌+◌, ◌++◌, length, IfOk, OnOk, OnErr, IfErr};
ghost use Rattle.audit_samples.specs.declared.build_fault.BuildFault.TheVariants.{Memory, TooLong};
ghost use Rattle.audit_samples.specs.Layout.{block_bytes, ipv4_bytes, MAX_FRAME};
ghost use Rattle.audit_samples.specs.Frames.{ethernet_bytes, frame_bytes};

use crate::build_fault::BuildFault;
use crate::sizes::{two_bytes, zeros_after};
use audit_model::{Addr, Side};
use std::alloc::{AllocError, Global};

/// A section header without options, of unknown length.
const SECTION: [u8; 28] = [
    0x0a, 0x0d, 0x0d, 0x0a, 28, 0, 0, 0, 0x4d, 0x3c, 0x2b, 0x1a, 1, 0, 0, 0, 0xff, 0xff, 0xff,
    0xff, 0xff, 0xff, 0xff, 0xff, 28, 0, 0, 0,
];

/// An Ethernet interface with stamps in microseconds, the default.
const INTERFACE: [u8; 20] = [1, 0, 0, 0, 20, 0, 0, 0, 1, 0, 0, 0, 0, 0, 4, 0, 20, 0, 0, 0];

/// The size of a UDP header, and of an IPv4 header with it, in bytes.
const UDP_LENGTH: usize = 8;

const IPV4_UDP_LENGTH: usize = 28;

/// The size of a packet block without its data, in bytes.
const PACKET_LENGTH: usize = 32;

/// A UDP datagram between an endpoint of the service and another one, and its direction.
#[derive(Clone, Copy)]
pub struct UdpDatagram<'a> {
    pub side: Side,
    pub from: Addr,
    pub to: Addr,
    pub payload: &'a [u8],
}

/// The Ethernet addresses of the receiver and of the sender. The server's ends with 1, the other
/// one's with 2.
fn ethernet_addresses(side: Side) -> [u8; 12]
    ensures { result ≡ ethernet_bytes side }
{
    match side {
        Side::Arrives => [2, 0, 0, 0, 0, 1, 2, 0, 0, 0, 0, 2],
        Side::Leaves => [2, 0, 0, 0, 0, 2, 2, 0, 0, 0, 0, 1],
    }
}

/// Adds an IPv4 header of UDP without options or checksum.
fn push_ipv4(out: &mut Vec<u8>, total_length: u16, from: u32, to: u32) -> Result<(), BuildFault>
    ensures ok { OnOk result (out.new.items ≡ out.old.items ++ ipv4_bytes total_length from to) }
    ensures err { IfErr result (λ fault. fault ≡ Memory) }
{
    out.extend_from_slice(&[0x45, 0])?;
    out.extend_from_slice(&total_length.to_be_bytes())?;
    out.extend_from_slice(&[0, 0, 0, 0, 0x40, 17, 0, 0])?;
    out.extend_from_slice(&from.to_be_bytes())?;
    out.extend_from_slice(&to.to_be_bytes())?;
    Ok(())
}

/// The Ethernet frame of a datagram.
fn frame(alloc: Global, datagram: &UdpDatagram<'_>) -> Result<Vec<u8>, BuildFault>
    ensures ok { IfOk result (λ frame. frame.items ≡ frame_bytes datagram.now) }
    ensures size { IfOk result (λ frame. length frame.items ≤ MAX_FRAME) }
    ensures err { IfErr result (λ fault. fault ≡ TooLong → 65507 < length datagram.now.payload.now) }
{
    let size = datagram.payload.len();
    let total_length = two_bytes(size.saturating_add(IPV4_UDP_LENGTH))?;
    let udp_length = two_bytes(size.saturating_add(UDP_LENGTH))?;
    let mut out = Vec::from_slice(alloc, &ethernet_addresses(datagram.side))?;
    out.extend_from_slice(&[0x08, 0x00])?;
    push_ipv4(&mut out, total_length, datagram.from.ip, datagram.to.ip)?;
    out.extend_from_slice(&datagram.from.port.to_be_bytes())?;
    out.extend_from_slice(&datagram.to.port.to_be_bytes())?;
    out.extend_from_slice(&udp_length.to_be_bytes())?;
    out.extend_from_slice(&[0, 0])?;
    out.extend_from_slice(datagram.payload)?;
    Ok(out)
}

/// The packet block of a frame of interface 0, seen at this many microseconds since 1970.
fn packet_block(alloc: Global, stamp: u64, frame: &[u8]) -> Result<Vec<u8>, BuildFault>
    requires { length frame.now ≤ MAX_FRAME }
    ensures ok { IfOk result (λ block. block.items ≡ block_bytes stamp frame.now) }
    ensures err { IfErr result (λ fault. fault ≡ Memory) }
{
    let padding = zeros_after(frame.len());
    let length = ((PACKET_LENGTH + frame.len() + padding.len()) as u32).to_le_bytes();
    let captured = (frame.len() as u32).to_le_bytes();
    let mut out = Vec::from_slice(alloc, &[6, 0, 0, 0])?;
    out.extend_from_slice(&length)?;
    out.extend_from_slice(&[0, 0, 0, 0])?;
    out.extend_from_slice(&((stamp >> 32) as u32).to_le_bytes())?;
    out.extend_from_slice(&((stamp & 0xFFFF_FFFF) as u32).to_le_bytes())?;
    out.extend_from_slice(&captured)?;
    out.extend_from_slice(&captured)?;
    out.extend_from_slice(frame)?;
    out.extend_from_slice(padding)?;
    out.extend_from_slice(&length)?;
    Ok(out)
}

/// A capture that is being built: one section, one Ethernet interface, and the packets so far.
#[derive(Drop)]
pub struct Capture {
    bytes: Vec<u8>,
}

impl Capture {
    ghost use Rattle.audit_samples.specs.Layout.{heading};
    ghost use Rattle.audit_samples.specs.Frames.{written};

    /// A capture without packets, 48 bytes.
    pub fn new(alloc: Global) -> Result<Capture, AllocError>
        ensures { IfOk result (λ capture. written capture ≡ heading) }
    {
        let mut bytes = Vec::from_slice(alloc, &SECTION)?;
        bytes.extend_from_slice(&INTERFACE)?;
        Ok(Capture { bytes })
    }

    /// Adds the packet of a datagram, seen at this many microseconds since 1970. `TooLong` for a
    /// payload of over 65,507 bytes. A fault changes nothing.
    pub fn add(
        &mut self,
        alloc: Global,
        stamp: u64,
        datagram: &UdpDatagram<'_>,
    ) -> Result<(), BuildFault>
        ensures ok { OnOk result (written self.new ≡ written self.old ++ block_bytes stamp (frame_bytes datagram.now)) }
        ensures err { OnErr result (written self.new ≡ written self.old) }
        ensures fault { IfErr result (λ fault. fault ≡ TooLong → 65507 < length datagram.now.payload.now) }
    {
        let frame = frame(alloc, datagram)?;
        let block = packet_block(alloc, stamp, frame.as_slice())?;
        self.bytes.extend_from_slice(block.as_slice())?;
        Ok(())
    }

    /// The bytes of the capture.
    pub fn bytes(&self) -> &[u8]
        ensures { result.now ≡ written self.now }
    {
        self.bytes.as_slice()
    }
}
