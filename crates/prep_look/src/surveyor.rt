//! Surveys captures that come in pieces.

use crate::clock::{closing_time, nanoseconds_of_tick};
use crate::granted_address::{aliases_of, granted_on_wire};
use crate::interface::Interface;
use crate::passed::{Passed, closed_in, passed_as};
use crate::survey::{Answers, Closed, Survey};
use audit_model::Addr;
use audit_packets::Seen;
use audit_pcapng::{BlockKind, CaptureFault};
use audit_stun::numbers::attribute::XOR_RELAYED_ADDRESS;
use audit_stun::numbers::method;
use audit_stun::{Class, Message, address, channel_data, message};
use prep_blocks::{Block, BlockSplitter, PacketHead};
use prep_frames::{byte_at, content_place, frame_of, seen_of};
use std::alloc::{AllocError, Global};
use std::collections::{BTreeMap, BTreeSet};

/// The offset of the interface number in a statistics block.
const STATISTICS_INTERFACE: usize = 8;

/// The most bytes of an Ethernet frame with two VLAN tags and 1,500 bytes of content, including its
/// checksum.
const LONGEST_FRAME: u32 = 1_526;

/// The most bytes of padding of ChannelData (RFC 8656, section 12.5).
const MOST_PADDING: usize = 3;

/// Surveys captures, each of which comes in pieces, cut anywhere. It keeps each address once, and
/// no payload. After a fault it can't be used any more.
#[derive(Drop)]
pub struct Surveyor {
    splitter: BlockSplitter,
    all: Survey,
    granted: BTreeSet<Addr>,
    /// The addresses at the ends of datagrams.
    wire: BTreeSet<Addr>,
    capture: u32,
    /// The number of interfaces before the present capture, and before its present section.
    before_capture: usize,
    before_section: usize,
    alloc: Global,
}

impl Surveyor {
    /// A surveyor before the first capture. It takes no memory.
    pub fn new(alloc: Global) -> Self {
        Surveyor {
            splitter: BlockSplitter::new(alloc),
            all: Survey::new(alloc),
            granted: BTreeSet::new(alloc),
            wire: BTreeSet::new(alloc),
            capture: 0,
            before_capture: 0,
            before_section: 0,
            alloc,
        }
    }

    /// Feeds the next piece of the present capture.
    pub fn feed(&mut self, piece: &[u8]) -> Result<(), CaptureFault> {
        let mut rest = piece;
        for _ in 0..piece.len() {
            let Some((block, remaining)) = self.splitter.next(rest)? else {
                return Ok(());
            };
            self.take(&block)?;
            rest = remaining;
        }
        Ok(())
    }

    /// Ends the present capture, and begins the next one.
    pub fn end(&mut self) -> Result<(), CaptureFault> {
        self.splitter.finish()?;
        self.splitter = BlockSplitter::new(self.alloc);
        self.capture = self.capture.saturating_add(1);
        self.before_capture = self.all.interfaces.len();
        self.before_section = self.before_capture;
        Ok(())
    }

    /// The contents of the captures that ended.
    pub fn finish(self) -> Result<Survey, AllocError> {
        let Surveyor {
            mut all,
            granted,
            wire,
            alloc,
            ..
        } = self;
        all.granted = granted_on_wire(alloc, &granted, &wire)?;
        all.aliases = aliases_of(alloc, all.granted.as_slice(), &all.answers, &wire)?;
        Ok(all)
    }

    fn take(&mut self, block: &Block) -> Result<(), AllocError> {
        match block.kind {
            BlockKind::Section => self.before_section = self.all.interfaces.len(),
            BlockKind::Interface => self.describe(block)?,
            BlockKind::Statistics => self.count_statistics(block),
            _ => {}
        }
        match block.packet {
            Some(head) => self.take_packet(block, head),
            None => Ok(()),
        }
    }

    /// Adds an interface.
    fn describe(&mut self, block: &Block) -> Result<(), AllocError> {
        let in_capture = self
            .all
            .interfaces
            .len()
            .saturating_sub(self.before_capture);
        let number = self
            .capture
            .saturating_mul(64)
            .saturating_add(u32::try_from(in_capture).unwrap_or(u32::MAX));
        self.all.interfaces.push(Interface::new(self.alloc, number, nanoseconds_of_tick(block)))?;
        Ok(())
    }

    fn count_statistics(&mut self, block: &Block) {
        let bytes = block.bytes.as_slice();
        if bytes.len() < STATISTICS_INTERFACE + 4 {
            return;
        }
        let id = block.order.u32_at(bytes, STATISTICS_INTERFACE) as usize;
        let place = self.before_section.saturating_add(id);
        if let Some(interface) = self.all.interfaces.get_mut(place) {
            interface.statistics = interface.statistics.saturating_add(1);
            let until = closing_time(block, interface.tick);
            interface.until = interface.until.max(until);
        }
    }

    fn take_packet(&mut self, block: &Block, head: PacketHead) -> Result<(), AllocError> {
        let place = self.before_capture.saturating_add(head.iface as usize);
        let frame = frame_of(block, head);
        let seen = seen_of(frame, head);
        if let Some(interface) = self.all.interfaces.get_mut(place) {
            interface.stamps = interface.stamps.with(head.stamp);
            match seen {
                Seen::Udp { .. } => interface.datagrams = interface.datagrams.saturating_add(1),
                Seen::Fragment { .. } => interface.pass(Passed::Fragment)?,
                Seen::Cut { .. } => interface.pass(Passed::Cut)?,
                Seen::Other => interface.pass(passed_as(frame))?,
            }
        }
        self.take_seen(frame, head, seen)
    }

    fn take_seen(
        &mut self,
        frame: &[u8],
        head: PacketHead,
        seen: Seen<'_>,
    ) -> Result<(), AllocError> {
        match seen {
            Seen::Udp { from, to, payload } => {
                if head.captured > LONGEST_FRAME && is_unfragmentable(frame) {
                    self.all.long = self.all.long.saturating_add(1);
                }
                self.wire.insert(from)?;
                self.wire.insert(to)?;
                self.take_payload(from, to, payload)
            }
            Seen::Fragment { from, to } => { count_ends(&mut self.all.fragments, (from, to)) }
            Seen::Cut { ips: Some(ips) } => { count_ends(&mut self.all.cuts, ips) }
            Seen::Cut { ips: None } => {
                self.all.unnamed_cuts = self.all.unnamed_cuts.saturating_add(1);
                Ok(())
            }
            Seen::Other => self.take_other(frame, head.stamp),
        }
    }

    /// Records an ICMP error that reports a closed port.
    fn take_other(&mut self, frame: &[u8], stamp: u64) -> Result<(), AllocError> {
        if passed_as(frame) != Passed::Icmp {
            return Ok(());
        }
        let Some(addr) = closed_in(frame) else {
            return Ok(());
        };
        let one = Closed {
            count: 1,
            first: stamp,
            last: stamp,
        };
        let all = match self.all.closed.get(&addr) {
            Some(earlier) => earlier.plus(one),
            None => one,
        };
        self.all.closed.insert(addr, all)?;
        Ok(())
    }

    fn take_payload(&mut self, from: Addr, to: Addr, payload: &[u8]) -> Result<(), AllocError> {
        if let Some((_, _, remaining)) = channel_data(payload) {
            if remaining > MOST_PADDING {
                let count = match self.all.merged.get(&(from, to)) {
                    Some(count) => *count,
                    None => 0,
                };
                self.all.merged.insert((from, to), count.saturating_add(1))?;
            }
            return Ok(());
        }
        let Some(message) = message(payload) else {
            return Ok(());
        };
        let is_granted = matches!(message.class(), Class::Success)
            && message.method() == method::ALLOCATE;
        if is_granted {
            if let Some(value) = message.first(XOR_RELAYED_ADDRESS) {
                if let Some(relayed) = address(value) {
                    self.granted.insert(relayed)?;
                }
            }
        }
        match answers_in(&message) {
            Some(answers) => self.count_answers(from, answers),
            None => Ok(()),
        }
    }

    /// Counts a response.
    fn count_answers(&mut self, from: Addr, more: Answers) -> Result<(), AllocError> {
        let earlier = match self.all.answers.get(&from) {
            Some(answers) => *answers,
            None => Answers::none(),
        };
        self.all.answers.insert(from, earlier.plus(more))?;
        Ok(())
    }
}

/// The count of a message as a response. Error responses to Binding aren't counted: peers send
/// them, too.
fn answers_in(message: &Message<'_>) -> Option<Answers> {
    let none = Answers::none();
    match (message.class(), message.method()) {
        (Class::Success, method::BINDING) => Some(Answers { binding: 1, ..none }),
        (Class::Success, method::ALLOCATE) => Some(Answers {
            allocate: 1,
            ..none
        }),
        (Class::Success | Class::Error, number) if number != method::BINDING => {
            Some(Answers { other: 1, ..none })
        }
        _ => None,
    }
}

/// Whether an IPv4 packet has "don't fragment" (RFC 791). Reassembled datagrams don't have it,
/// whatever their length.
fn is_unfragmentable(frame: &[u8]) -> bool {
    byte_at(frame, content_place(frame) + 6) & 0x40 != 0
}

/// Counts a frame between two addresses.
fn count_ends(counts: &mut BTreeMap<(u32, u32), u64>, ips: (u32, u32)) -> Result<(), AllocError> {
    let count = counts.entry(ips)?.or_insert(0);
    *count = count.saturating_add(1);
    Ok(())
}
