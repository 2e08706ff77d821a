//! Reads a capture in pieces.

use crate::blocks::{complete, next_packet, take_blocks};
use crate::fault::CaptureFault;
use crate::packet::{Packet, PacketSlice};
use crate::scope::Scope;
use std::alloc::Global;

/// Reads a capture that comes in pieces, split anywhere. It keeps the one block that is not yet
/// whole.
#[derive(Debug, Drop)]
pub struct BlockReader {
    scope: Scope,
    /// The bytes so far of the block that is not yet whole.
    held: Vec<u8>,
    failed: bool,
    alloc: Global,
}

impl BlockReader {
    ghost use Rattle.std.specs.Prelude.{◌≡◌, ◌<◌, [], ◌++◌, ℕ, List, length, IfOk, IfErr, IfSome, IfNone, OnOk, OnErr};
    ghost use Rattle.audit_pcapng.specs.declared.packet.Packet.{Packet};
    ghost use Rattle.audit_pcapng.specs.Captures.{IsCut, Ends};
    ghost use Rattle.audit_pcapng.specs.Stretches.{Consumes, Stops};
    ghost use Rattle.audit_pcapng.specs.Steps.{IsAt, Begins, Gave, EndsBy};
    ghost use Rattle.audit_pcapng.specs.Readers.{StandsFor, IsFailed, GoesOn, Refuses};

    /// A reader of no bytes. Allocates no memory.
    pub fn new(alloc: Global) -> Self
        ensures { StandsFor result [] [] }
    {
        BlockReader {
            scope: Scope::new(),
            held: Vec::new(alloc),
            failed: false,
            alloc,
        }
    }

    /// Reads the next piece of the capture, and adds the packet of each block that is now whole.
    /// After a fault `out` has the packets before it, after C13 perhaps only the first of them, and
    /// the reader refuses from then on.
    pub fn feed(&mut self, piece: &[u8], out: &mut Vec<Packet>) -> Result<(), CaptureFault>
        ensures ok { (text : List ℕ) (packets : List Packet) → StandsFor self.old text packets →
            OnOk result (GoesOn self.new (text ++ piece.now) packets out.old.items out.new.items) }
        ensures err { (text : List ℕ) (packets : List Packet) → StandsFor self.old text packets →
            IfErr result (Refuses (text ++ piece.now) packets out.old.items out.new.items) }
        ensures failed { OnErr result (IsFailed self.new) }
        ensures again { IsFailed self.old → (result ≡ Err CaptureFault.Failed) × (out.new.items ≡ out.old.items) }
    {
        if self.failed {
            return Err(CaptureFault::Failed);
        }
        match self.take(piece, out) {
            Ok(()) => Ok(()),
            Err(fault) => {
                self.failed = true;
                Err(fault)
            }
        }
    }

    /// Completes the block that is held from the next piece, adds the packet of that block once it
    /// is whole, and returns the bytes after it. Call `next` on these until it returns None. The
    /// faults are those of `feed`.
    pub fn start<'a>(
        &mut self,
        piece: &'a [u8],
        out: &mut Vec<Packet>,
    ) -> Result<&'a [u8], CaptureFault>
        ensures ok { (text : List ℕ) (packets : List Packet) → StandsFor self.old text packets →
            IfOk result (λ rest. Begins self.new (text ++ piece.now) packets out.old.items out.new.items rest.now) }
        ensures err { (text : List ℕ) (packets : List Packet) → StandsFor self.old text packets →
            IfErr result (Refuses (text ++ piece.now) packets out.old.items out.new.items) }
        ensures failed { OnErr result (IsFailed self.new) }
        ensures again { IsFailed self.old → (result ≡ Err CaptureFault.Failed) × (out.new.items ≡ out.old.items) }
    {
        if self.failed {
            return Err(CaptureFault::Failed);
        }
        if self.held.is_empty() {
            return Ok(piece);
        }
        match complete(&mut self.scope, &mut self.held, self.alloc, piece, out) {
            Ok(Some(rest)) => Ok(rest),
            Ok(None) => Ok(&[]),
            Err(fault) => {
                self.failed = true;
                Err(fault)
            }
        }
    }

    /// The next packet of the rest of a piece, and the bytes after it. If there is none, the piece
    /// is read. The packet's bytes are not copied. The faults are those of `feed`.
    pub fn next<'a>(
        &mut self,
        rest: &'a [u8],
    ) -> Result<Option<(PacketSlice<'a>, &'a [u8])>, CaptureFault>
        ensures packet { (text : List ℕ) (packets : List Packet) → IsAt self.old text packets rest.now →
            IfOk result (λ step. IfSome step (λ given. Gave self.new text packets given.0 given.1.now)) }
        ensures none { (text : List ℕ) (packets : List Packet) → IsAt self.old text packets rest.now →
            IfOk result (λ step. IfNone step (StandsFor self.new text packets)) }
        ensures err { (text : List ℕ) (packets : List Packet) → IsAt self.old text packets rest.now →
            IfErr result (EndsBy text packets) }
        ensures shorter { IfOk result (λ step. IfSome step (λ given. length given.1.now < length rest.now)) }
        ensures failed { OnErr result (IsFailed self.new) }
        ensures again { IsFailed self.old → result ≡ Err CaptureFault.Failed }
    {
        if self.failed {
            return Err(CaptureFault::Failed);
        }
        if rest.is_empty() {
            return Ok(None);
        }
        match next_packet(&mut self.scope, rest) {
            Ok((Some(packet), behind)) => Ok(Some((packet, behind))),
            Ok((None, behind)) => match self.held.extend_from_slice(behind) {
                Ok(()) => Ok(None),
                Err(_) => {
                    self.failed = true;
                    Err(CaptureFault::Memory)
                }
            },
            Err(fault) => {
                self.failed = true;
                Err(fault)
            }
        }
    }

    /// Checks that the capture may end here.
    pub fn finish(&self) -> Result<(), CaptureFault>
        ensures ends { (text : List ℕ) (packets : List Packet) → StandsFor self.now text packets → Ends result text packets }
        ensures again { IsFailed self.now → result ≡ Err CaptureFault.Failed }
    {
        if self.failed {
            return Err(CaptureFault::Failed);
        }
        if !self.held.is_empty() {
            return Err(CaptureFault::Torn);
        }
        if self.scope.order().is_none() {
            return Err(CaptureFault::NoSection);
        }
        Ok(())
    }

    fn take(&mut self, piece: &[u8], out: &mut Vec<Packet>) -> Result<(), CaptureFault>
        ensures cut { OnOk result (IsCut self.new.scope self.new.held.items) }
        ensures ok { IsCut self.old.scope self.old.held.items →
            OnOk result (Consumes self.old.scope (self.old.held.items ++ piece.now)
            out.old.items self.new.scope out.new.items self.new.held.items) }
        ensures err { IsCut self.old.scope self.old.held.items →
            IfErr result (Stops self.old.scope (self.old.held.items ++ piece.now)
            out.old.items out.new.items) }
        ensures failed { self.new.failed ≡ self.old.failed }
    {
        if self.held.is_empty() {
            return self.begin(piece, out);
        }
        match complete(&mut self.scope, &mut self.held, self.alloc, piece, out)? {
            None => Ok(()),
            Some(rest) => self.begin(rest, out),
        }
    }

    /// Reads bytes that begin with a block.
    fn begin(&mut self, bytes: &[u8], out: &mut Vec<Packet>) -> Result<(), CaptureFault>
        requires { self.old.held.items ≡ [] }
        ensures cut { OnOk result (IsCut self.new.scope self.new.held.items) }
        ensures ok { OnOk result (Consumes self.old.scope bytes.now out.old.items self.new.scope out.new.items self.new.held.items) }
        ensures err { IfErr result (Stops self.old.scope bytes.now out.old.items out.new.items) }
        ensures failed { self.new.failed ≡ self.old.failed }
    {
        let rest = take_blocks(&mut self.scope, self.alloc, bytes, out)?;
        self.held.extend_from_slice(rest)?;
        Ok(())
    }
}
