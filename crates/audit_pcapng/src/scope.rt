//! Reads whole blocks, and keeps what later blocks depend on.

use crate::block_kind::BlockKind;
use crate::byte_order::ByteOrder;
use crate::clock::{Interface, clock};
use crate::fault::CaptureFault;
use crate::heading::Heading;
use crate::interfaces::Interfaces;
use crate::option::{drop_count, padded};
use crate::packet::PacketSlice;
use crate::wire::{
    CAPTURED_LENGTH, EPB_DROPCOUNT, ETHERNET, INTERFACE_ID, INTERFACE_OPTIONS, ISB_IFDROP,
    ISB_OSDROP, LINK_TYPE, MAJOR_VERSION, MAX_INTERFACES, MAX_RESOLUTION, ORIGINAL_LENGTH,
    PACKET_DATA, SECOND_LENGTH, SECTION_MAJOR, STAMP_HIGH, STAMP_LOW, STATISTICS_OPTIONS,
};

/// What the next block depends on, of the blocks so far.
#[derive(Debug, Drop)]
pub struct Scope {
    /// The interfaces of the file, over all sections.
    interfaces: Interfaces,
    /// How many of them are of earlier sections.
    earlier: u32,
    /// The byte order of the section, if one has begun.
    order: Option<ByteOrder>,
}

impl Scope {
    ghost use Rattle.std.specs.Prelude.{◌≡◌, ◌≤◌, length, Ok, Err, MatchResult};
    ghost use Rattle.audit_pcapng.specs.Reading.{Gives};
    ghost use Rattle.audit_pcapng.specs.Headings.{least_length};
    ghost use Rattle.audit_pcapng.specs.Sections.{no_blocks, section, description, interface_of};
    ghost use Rattle.audit_pcapng.specs.Packets.{packet_of, read_of};
    ghost use Rattle.audit_pcapng.specs.Blocks.{statistics, packet, block, Takes};

    pub fn new() -> Self
        ensures { result ≡ no_blocks }
    {
        Scope {
            interfaces: Interfaces::new(),
            earlier: 0,
            order: None,
        }
    }

    /// The byte order of the section, if one has begun.
    pub fn order(&self) -> Option<ByteOrder>
        ensures { result ≡ self.now.order }
    {
        self.order
    }

    /// Reads a whole block, and returns its packet if it has one. After a fault nothing is changed.
    #[tactic(auto, unfolding(crate::specs::Blocks::block, crate::specs::Blocks::content))]
    pub fn take_block<'a>(
        &mut self,
        heading: Heading,
        bytes: &'a [u8],
    ) -> Result<Option<PacketSlice<'a>>, CaptureFault>
        requires { least_length heading.kind ≤ length bytes.now }
        ensures { Takes (read_of result) self.old self.new (block self.old heading bytes.now) }
    {
        let order = heading.order;
        let end = bytes.len() - SECOND_LENGTH;
        if order.u32_at(bytes, end) as usize != bytes.len() {
            return Err(CaptureFault::Length);
        }
        let (body, _) = bytes.split_at(end);
        match heading.kind {
            BlockKind::Section => {
                self.begin_section(order, body)?;
                Ok(None)
            }
            BlockKind::Interface => {
                self.describe(order, body)?;
                Ok(None)
            }
            BlockKind::Statistics => {
                self.check_statistics(order, body)?;
                Ok(None)
            }
            BlockKind::Packet => {
                let packet = self.packet(order, body)?;
                Ok(Some(packet))
            }
            BlockKind::NoStamp => Err(CaptureFault::NoStamp),
            BlockKind::Other => Ok(None),
        }
    }

    /// Reads a Section Header Block (section 4.1).
    #[tactic(auto, unfolding(crate::specs::Sections::section))]
    fn begin_section(&mut self, order: ByteOrder, body: &[u8]) -> Result<(), CaptureFault>
        requires { 24 ≤ length body.now }
        ensures { MatchResult result
            (λ _. section self.old order body.now ≡ Ok self.new)
            (λ fault. (self.new ≡ self.old) × (section self.old order body.now ≡ Err fault)) }
    {
        if order.u16_at(body, SECTION_MAJOR) != MAJOR_VERSION {
            return Err(CaptureFault::Version);
        }
        self.order = Some(order);
        self.earlier = self.interfaces.len() as u32;
        Ok(())
    }

    /// Reads an Interface Description Block (section 4.2).
    #[tactic(auto, unfolding(crate::specs::Sections::description))]
    fn describe(&mut self, order: ByteOrder, body: &[u8]) -> Result<(), CaptureFault>
        requires { 16 ≤ length body.now }
        ensures { MatchResult result
            (λ _. description self.old order body.now ≡ Ok self.new)
            (λ fault. (self.new ≡ self.old) × (description self.old order body.now ≡ Err fault)) }
    {
        if order.u16_at(body, LINK_TYPE) != ETHERNET {
            return Err(CaptureFault::LinkType);
        }
        let (_, options) = body.split_at(INTERFACE_OPTIONS);
        let interface = clock(order, options)?;
        // With the top bit set the resolution is a power of 2, and also greater than 9.
        if interface.resolution > MAX_RESOLUTION {
            return Err(CaptureFault::Resolution);
        }
        if self.interfaces.len() >= MAX_INTERFACES {
            return Err(CaptureFault::Limit);
        }
        self.interfaces.push(interface);
        Ok(())
    }

    /// The number in the file, and the clock, of an interface that the section has described.
    #[tactic(auto, unfolding(crate::specs::Sections::interface_of))]
    fn interface(&self, id: u32) -> Result<(u32, Interface), CaptureFault>
        ensures { result ≡ interface_of self.now id }
    {
        let number = self.earlier as usize + id as usize;
        match self.interfaces.get(number) {
            None => Err(CaptureFault::Interface),
            Some(interface) => Ok((number as u32, interface)),
        }
    }

    /// Checks an Interface Statistics Block (section 4.6).
    #[tactic(auto, unfolding(crate::specs::Blocks::statistics))]
    fn check_statistics(&self, order: ByteOrder, body: &[u8]) -> Result<(), CaptureFault>
        requires { 20 ≤ length body.now }
        ensures { MatchResult result
            (λ _. statistics self.now order body.now ≡ Ok self.now)
            (λ fault. statistics self.now order body.now ≡ Err fault) }
    {
        self.interface(order.u32_at(body, INTERFACE_ID))?;
        let (_, options) = body.split_at(STATISTICS_OPTIONS);
        let by_interface = drop_count(order, options, ISB_IFDROP)?;
        let by_system = drop_count(order, options, ISB_OSDROP)?;
        if by_interface != 0 || by_system != 0 {
            return Err(CaptureFault::Drops);
        }
        Ok(())
    }

    /// Reads an Enhanced Packet Block (section 4.3).
    #[tactic(auto, unfolding(crate::specs::Blocks::packet))]
    fn packet<'a>(&self, order: ByteOrder, body: &'a [u8]) -> Result<PacketSlice<'a>, CaptureFault>
        requires { 28 ≤ length body.now }
        ensures { Gives packet_of result (packet self.now order body.now) }
    {
        let captured = order.u32_at(body, CAPTURED_LENGTH);
        let (_, from) = body.split_at(PACKET_DATA);
        if from.len() < padded(captured) {
            return Err(CaptureFault::Length);
        }
        let (iface, interface) = self.interface(order.u32_at(body, INTERFACE_ID))?;
        let (_, options) = from.split_at(padded(captured));
        if drop_count(order, options, EPB_DROPCOUNT)? != 0 {
            return Err(CaptureFault::Drops);
        }
        let high = u64::from(order.u32_at(body, STAMP_HIGH));
        let low = u64::from(order.u32_at(body, STAMP_LOW));
        let stamp = interface.stamp((high << 32) + low)?;
        let (data, _) = from.split_at(captured as usize);
        Ok(PacketSlice {
            stamp,
            bytes: data,
            iface,
            captured,
            original: order.u32_at(body, ORIGINAL_LENGTH),
        })
    }
}
