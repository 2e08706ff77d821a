//! Makes the records of packets.

ghost use Rattle.std.specs.Prelude.{◌≡◌};

use crate::carrier::{Captured, Carrier, CarrierKind, carrier_in};
use crate::elsewhere::note_granted_address;
use crate::kept::Kept;
use crate::payload::{Read, read_payload};
use crate::record::{CapturePackets, Content, Outside, Record, Records};
use audit_model::{Addr, Policy, Side};
use audit_packets::{Seen, slice_datagram};
use audit_pcapng::PacketSlice;
use prep_blocks::{Block, PacketHead};
use prep_cut::{Allocations, Stated, slack_of};
use prep_frames::frame_of;
use std::alloc::{AllocError, Global};

/// Keeps records of packets, capture by capture.
#[derive(Drop)]
pub(crate) struct Keeper<'p> {
    policy: &'p Policy,
    stated: Stated,
    slack: u64,
    all: Records,
    capture: u16,
    /// The packets of the present capture.
    packets: CapturePackets,
    alloc: Global,
}

/// A UDP datagram in a packet.
struct Found<'a> {
    head: PacketHead,
    from: Addr,
    to: Addr,
    payload: &'a [u8],
}

impl<'p> Keeper<'p> {
    /// No packets. It takes no memory.
    pub(crate) fn new(alloc: Global, policy: &'p Policy, stated: Stated) -> Self {
        Keeper {
            policy,
            stated,
            slack: slack_of(policy),
            all: Records::new(alloc),
            capture: 0,
            packets: CapturePackets {
                count: 0,
                outside: Vec::new(alloc),
            },
            alloc,
        }
    }

    /// Ends the present capture, and begins the next one.
    pub(crate) fn end(&mut self) -> Result<(), AllocError> {
        let next = CapturePackets {
            count: 0,
            outside: Vec::new(self.alloc),
        };
        let done = std::mem::replace(&mut self.packets, next);
        self.all.captures.push(done)?;
        self.capture = self.capture.saturating_add(1);
        Ok(())
    }

    /// The records, with these allocations.
    pub(crate) fn finish(self, allocations: Allocations) -> Records
        ensures { result.allocations ≡ allocations }
    {
        let Keeper { mut all, .. } = self;
        all.allocations = allocations;
        all
    }

    /// Reads the next block. One without a packet changes nothing.
    pub(crate) fn take(&mut self, block: &Block) -> Result<(), AllocError> {
        match block.packet {
            Some(head) => self.take_packet(block, head),
            None => Ok(()),
        }
    }

    fn take_packet(&mut self, block: &Block, head: PacketHead) -> Result<(), AllocError> {
        self.note_moment(head.stamp)?;
        if self.stated.is_early(head.stamp) {
            self.packets.count = self.packets.count.saturating_add(1);
            return Ok(());
        }
        let frame = frame_of(block, head);
        let packet = PacketSlice {
            stamp: head.stamp,
            bytes: frame,
            iface: head.iface,
            captured: head.captured,
            original: head.original,
        };
        match slice_datagram(packet) {
            Seen::Udp { from, to, payload } => self.take_datagram(Found {
                head,
                from,
                to,
                payload,
            })?,
            Seen::Other => self.take_elsewhere(head, frame)?,
            Seen::Fragment { .. } | Seen::Cut { .. } => {}
        }
        self.packets.count = self.packets.count.saturating_add(1);
        Ok(())
    }

    /// Records a frame that isn't UDP over IPv4.
    fn take_elsewhere(&mut self, head: PacketHead, frame: &[u8]) -> Result<(), AllocError> {
        let captured = Captured {
            stamp: head.stamp,
            original: head.original,
            packet: self.packets.count,
            capture: self.capture,
        };
        if let Some(carrier) = carrier_in(self.policy, captured, frame) {
            self.all.carriers.push(carrier)?;
        }
        note_granted_address(self.policy, head.stamp, frame, &mut self.all.unread_grants)
    }

    /// Records a DTLS record that arrives at an address of the server and isn't a datagram of the
    /// service.
    fn take_dtls(&mut self, stamp: u64, payload: &[u8]) -> Result<(), AllocError> {
        self.all.carriers.push(Carrier {
            stamp,
            connection: 0,
            bytes: u32::try_from(payload.len()).unwrap_or(u32::MAX),
            packet: self.packets.count,
            capture: self.capture,
            goes_on: false,
            kind: CarrierKind::Dtls,
        })?;
        Ok(())
    }

    /// Records a packet's stamp, and whether it is outside the stated moments.
    fn note_moment(&mut self, stamp: u64) -> Result<(), AllocError> {
        self.all.first = match self.all.first {
            Some(first) => Some(first.min(stamp)),
            None => Some(stamp),
        };
        let is_early = self.stated.is_early(stamp);
        if is_early || self.stated.is_late(stamp.saturating_sub(self.slack)) {
            let packet = self.packets.count;
            self.packets.outside.push(Outside { packet, is_early })?;
        }
        Ok(())
    }

    fn take_datagram(&mut self, found: Found<'_>) -> Result<(), AllocError> {
        let Found {
            head,
            from,
            to,
            payload,
        } = found;
        let leaves = self.policy.listens(from) || self.policy.relays(from);
        let arrives = self.policy.listens(to) || self.policy.relays(to);
        let is_dtls = matches!(payload, [20..=63, ..]);
        if !leaves && !arrives {
            if is_dtls && self.policy.service_ip(to.ip) {
                self.take_dtls(head.stamp, payload)?;
            }
            return Ok(());
        }
        let own = if leaves { from } else { to };
        let read = if leaves && arrives {
            Read::without_data(Content::Inside)
        } else if self.policy.listens(own) {
            read_payload(payload, is_dtls, &mut self.all)?
        } else {
            Read::of_data(Content::Relayed, payload)
        };
        let iface = u32::from(self.capture)
            .saturating_mul(64)
            .saturating_add(head.iface);
        self.all.records.push(Kept::new(Record {
            stamp: head.stamp,
            digest: read.digest,
            from,
            to,
            packet: self.packets.count,
            iface: u16::try_from(iface).unwrap_or(u16::MAX),
            side: if leaves { Side::Leaves } else { Side::Arrives },
            least: read.length,
            content: read.content,
        }))?;
        Ok(())
    }
}
