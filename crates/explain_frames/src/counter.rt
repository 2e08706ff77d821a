//! Counts the frames of a capture, and the service's datagrams of each interface in it.

ghost use Rattle.std.specs.Prelude.{◌≡◌, ◌<◌, [], ◌∷◌, ◌++◌, ℕ, Bool, List, length, is_some, IfOk, IfSome, IfNone, OnOk};
ghost use Rattle.audit_model.specs.declared.sighting.SightId.{SightId as AnySight};
ghost use Rattle.audit_pcapng.specs.declared.packet.Packet.{Packet as AnyPacket};
ghost use Rattle.audit_pcapng.specs.Packets.{packet_of};
ghost use Rattle.audit_pcapng.specs.Readers.{StandsFor};
ghost use Rattle.audit_sightings.specs.ServiceDatagram.{is_endpoint};
ghost use Rattle.audit_sightings.specs.Sightings.{kept_in};
ghost use Rattle.explain_frames.specs.FramesOf.{one_of};
ghost use Rattle.explain_frames.specs.Counting.{Counts, TakesIn, Goes, Amid, Went};

use crate::frames::{Frame, Frames};
use crate::tally::{INTERFACES, Tally};
use audit_model::{Addr, Policy, SightId};
use audit_packets::{Seen, slice_datagram};
use audit_pcapng::{BlockReader, CaptureFault, Packet, PacketSlice};
use std::alloc::{AllocError, Global};

/// The number of sightings of an interface that can have a name.
const INDICES: u64 = 4_294_967_296;

/// Reads a capture that comes in pieces, and records the requested frames. It keeps the one block
/// that is not yet complete.
#[derive(Drop)]
pub struct FrameCounter<'p> {
    policy: &'p Policy,
    /// The file's number, from 0.
    file: u16,
    reader: BlockReader,
    tally: Tally,
    alloc: Global,
}

impl<'p> FrameCounter<'p> {
    /// Before the first byte of the file with this number, from 0.
    pub fn new(alloc: Global, policy: &'p Policy, file: u16) -> Result<Self, AllocError>
        ensures counts { IfOk result (λ counter. Counts policy.now counter.tally []) }
        ensures read { IfOk result (λ counter. StandsFor counter.reader [] []) }
        ensures policy { IfOk result (λ counter. counter.policy.now ≡ policy.now) }
        ensures file { IfOk result (λ counter. counter.file ≡ file) }
    {
        Ok(FrameCounter {
            policy,
            file,
            reader: BlockReader::new(alloc),
            tally: Tally::new(alloc)?,
            alloc,
        })
    }

    /// Feeds the next piece of the capture. For each packet it takes log n in the requested
    /// sightings. It fails as `BlockReader::start` and `BlockReader::next` do, and if memory is
    /// out.
    pub fn feed(&mut self, piece: &[u8], frames: &mut Frames) -> Result<(), CaptureFault>
        ensures goes { (text : List ℕ) (wanted : AnySight → Bool) (packets_of : ℕ → List AnyPacket) → Goes self.old frames.old text wanted packets_of →
            OnOk result (Went self.new frames.new (text ++ piece.now) wanted packets_of) }
        ensures policy { self.new.policy ≡ self.old.policy }
        ensures file { self.new.file ≡ self.old.file }
    {
        let rest = self.start(piece, frames)?;
        self.take_rest(rest, frames)
    }

    /// Reads the packet of the block that was kept, if the piece completes it, and returns the
    /// bytes after it.
    fn start<'a>(&mut self, piece: &'a [u8], frames: &mut Frames) -> Result<&'a [u8], CaptureFault>
        ensures goes { (text : List ℕ) (wanted : AnySight → Bool) (packets_of : ℕ → List AnyPacket) → Goes self.old frames.old text wanted packets_of →
            IfOk result (λ rest. Amid self.new frames.new (text ++ piece.now) wanted packets_of rest.now) }
        ensures policy { self.new.policy ≡ self.old.policy }
        ensures file { self.new.file ≡ self.old.file }
    {
        let mut held = Vec::new(self.alloc);
        let rest = self.reader.start(piece, &mut held)?;
        self.take_all(&held, frames)?;
        Ok(rest)
    }

    /// Reads the packets of the rest of a piece.
    fn take_rest(&mut self, rest: &[u8], frames: &mut Frames) -> Result<(), CaptureFault>
        ensures goes { (text : List ℕ) (wanted : AnySight → Bool) (packets_of : ℕ → List AnyPacket) → Amid self.old frames.old text wanted packets_of rest.now →
            OnOk result (Went self.new frames.new text wanted packets_of) }
        ensures policy { self.new.policy ≡ self.old.policy }
        ensures file { self.new.file ≡ self.old.file }
    {
        let mut rest = rest;
        'packets: while let Some(behind) = self.take_next(rest, frames)? {
            rest = behind;
        }
        Ok(())
    }

    /// Reads the next packet of the rest of a piece, and returns the bytes after it if there is
    /// one.
    fn take_next<'a>(
        &mut self,
        rest: &'a [u8],
        frames: &mut Frames,
    ) -> Result<Option<&'a [u8]>, CaptureFault>
        ensures packet { (text : List ℕ) (wanted : AnySight → Bool) (packets_of : ℕ → List AnyPacket) → Amid self.old frames.old text wanted packets_of rest.now →
            IfOk result (λ step. IfSome step (λ behind. Amid self.new frames.new text wanted packets_of behind.now)) }
        ensures none { (text : List ℕ) (wanted : AnySight → Bool) (packets_of : ℕ → List AnyPacket) → Amid self.old frames.old text wanted packets_of rest.now →
            IfOk result (λ step. IfNone step (Went self.new frames.new text wanted packets_of)) }
        ensures shorter { IfOk result (λ step. IfSome step (λ behind. length behind.now < length rest.now)) }
        ensures policy { self.new.policy ≡ self.old.policy }
        ensures file { self.new.file ≡ self.old.file }
    {
        match self.reader.next(rest)? {
            None => Ok(None),
            Some((packet, behind)) => {
                self.take(packet, frames)?;
                Ok(Some(behind))
            }
        }
    }

    /// Reads packets, in order.
    fn take_all(&mut self, packets: &[Packet], frames: &mut Frames) -> Result<(), AllocError>
        ensures takes { OnOk result (TakesIn self.old.policy.now self.old.file self.old.tally self.new.tally frames.old frames.new packets.now) }
        ensures reader { self.new.reader ≡ self.old.reader }
        ensures policy { self.new.policy ≡ self.old.policy }
        ensures file { self.new.file ≡ self.old.file }
    {
        'packets: for packet in packets {
            self.take(packet.as_slice(), frames)?;
        }
        Ok(())
    }

    /// Counts a packet, and records its frame if it shows a requested sighting.
    fn take(&mut self, packet: PacketSlice<'_>, frames: &mut Frames) -> Result<(), AllocError>
        ensures takes { OnOk result (TakesIn self.old.policy.now self.old.file self.old.tally self.new.tally frames.old frames.new (packet_of packet.entry ∷ [])) }
        ensures reader { self.new.reader ≡ self.old.reader }
        ensures policy { self.new.policy ≡ self.old.policy }
        ensures file { self.new.file ≡ self.old.file }
    {
        self.tally.add_packet();
        frames.note_stamp(packet.stamp);
        if !is_of_service(self.policy, packet) {
            return frames.note_unjudged_grants(self.policy, self.file, self.tally.packets, packet);
        }
        if packet.iface >= INTERFACES {
            return Ok(());
        }
        let before = self.tally.add_sighting(packet.iface);
        if before >= INDICES {
            return Ok(());
        }
        let sight = SightId {
            iface: u32::from(self.file) * INTERFACES + packet.iface,
            index: before as u32,
        };
        let frame = Frame {
            number: self.tally.packets,
            stamp: packet.stamp,
        };
        frames.note_frame(sight, frame)
    }
}

/// Whether the packet is a datagram with one end in the service.
fn is_of_service(policy: &Policy, packet: PacketSlice<'_>) -> bool
    ensures { result ≡ is_some (kept_in policy.now (packet_of packet.entry)) }
{
    match slice_datagram(packet) {
        Seen::Udp { from, to, .. } => has_one_end(policy, from, to),
        Seen::Other => false,
        Seen::Fragment { .. } => false,
        Seen::Cut { .. } => false,
    }
}

/// Whether one of two endpoints is the service's, and not both.
fn has_one_end(policy: &Policy, from: Addr, to: Addr) -> bool
    ensures { result ≡ one_of (is_endpoint policy.now from) (is_endpoint policy.now to) }
{
    let leaves = policy.listens(from) || policy.relays(from);
    let arrives = policy.listens(to) || policy.relays(to);
    match (leaves, arrives) {
        (true, true) | (false, false) => false,
        (true, false) | (false, true) => true,
    }
}
