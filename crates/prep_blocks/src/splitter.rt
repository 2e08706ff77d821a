//! Splits a capture into its blocks.

ghost use Rattle.std.specs.Prelude.{◌≡◌, ◌≢◌, ◌<◌, ◌≤◌, [], ◌++◌, ℕ, List, length, max, IfOk, IfErr, IfSome, IfNone, OnOk, OnErr};
ghost use Rattle.audit_pcapng.specs.declared.fault.CaptureFault.TheVariants.{Memory};
ghost use Rattle.audit_pcapng.specs.Captures.{IsCut, IsFaulty};
ghost use Rattle.prep_blocks.specs.Read.{Moves, Splits};

use crate::block::{Block, PacketHead};
use audit_model::Listed;
use audit_pcapng::{CaptureFault, HEADING_LENGTH, Heading, Scope};
use std::alloc::Global;
use std::mem;

/// Splits a capture that comes in pieces, cut anywhere. It keeps the one block that is not yet
/// complete.
#[derive(Debug, Drop)]
pub struct BlockSplitter {
    scope: Scope,
    /// The bytes so far of the block that is not yet complete.
    held: Vec<u8>,
    failed: bool,
    alloc: Global,
}

impl BlockSplitter {
    ghost use Rattle.std.specs.Prelude.{◌∷◌};
    ghost use Rattle.prep_blocks.specs.declared.block.Block.{Block};
    ghost use Rattle.prep_blocks.specs.Splitting.{StandsFor, IsFailed, Gave, Ends, EndsBy};

    /// A splitter before the first byte. It takes no memory.
    pub fn new(alloc: Global) -> Self
        ensures { StandsFor result [] [] }
    {
        BlockSplitter {
            scope: Scope::new(),
            held: Vec::new(alloc),
            failed: false,
            alloc,
        }
    }

    /// The next block that the piece completes, and the bytes after it; if there is none, the piece
    /// is kept. Its faults are C2 to C12 of the capture, and C13; after a fault it refuses each
    /// piece. It looks at each byte once.
    pub fn next<'a>(&mut self, piece: &'a [u8]) -> Result<Option<(Block, &'a [u8])>, CaptureFault>
        ensures block { (text : List ℕ) (blocks : List Block) → StandsFor self.old text blocks →
            IfOk result (λ step. IfSome step (λ given. Gave self.new text blocks piece.now given.0 given.1.now)) }
        ensures none { (text : List ℕ) (blocks : List Block) → StandsFor self.old text blocks →
            IfOk result (λ step. IfNone step (StandsFor self.new (text ++ piece.now) blocks)) }
        ensures err { (text : List ℕ) (blocks : List Block) → StandsFor self.old text blocks →
            IfErr result (EndsBy (text ++ piece.now) blocks) }
        ensures failed { OnErr result (IsFailed self.new) }
        ensures again { IsFailed self.old → result ≡ Err CaptureFault.Failed }
    {
        if self.failed {
            return Err(CaptureFault::Failed);
        }
        match split(&mut self.scope, &mut self.held, self.alloc, piece) {
            Ok(step) => Ok(step),
            Err(fault) => {
                self.failed = true;
                Err(fault)
            }
        }
    }

    /// Whether the capture may end here: C1 inside a block, C5 if there was no byte.
    pub fn finish(&self) -> Result<(), CaptureFault>
        ensures ends { (text : List ℕ) (blocks : List Block) → StandsFor self.now text blocks → Ends result text blocks }
        ensures again { IsFailed self.now → result ≡ Err CaptureFault.Failed }
    {
        if self.failed {
            return Err(CaptureFault::Failed);
        }
        if !self.held.is_empty() {
            return Err(CaptureFault::Torn);
        }
        if self.scope.order().is_none() {
            return Err(CaptureFault::NoSection);
        }
        Ok(())
    }
}

/// Adds the missing bytes to the block that is kept, and returns it if it is complete, with the
/// bytes after it.
fn split<'a>(
    scope: &mut Scope,
    held: &mut Vec<u8>,
    alloc: Global,
    piece: &'a [u8],
) -> Result<Option<(Block, &'a [u8])>, CaptureFault>
    ensures some { IsCut scope.old held.old.items → IfOk result (λ step. IfSome step (λ given.
        Splits scope.old held.old.items piece.now given.0 given.1.now scope.new)) }
    ensures empty { IfOk result (λ step. IfSome step (λ given. held.new.items ≡ [])) }
    ensures cut { IfOk result (λ step. IfNone step (IsCut scope.new held.new.items)) }
    ensures kept { IfOk result (λ step. IfNone step (scope.new ≡ scope.old)) }
    ensures none { IfOk result (λ step. IfNone step (held.new.items ≡ held.old.items ++ piece.now)) }
    ensures err { IfErr result (λ fault. IsCut scope.old held.old.items → fault ≢ Memory →
        IsFaulty scope.old (held.old.items ++ piece.now) fault) }
{
    let rest = hold(held, piece, HEADING_LENGTH)?;
    let Some(heading) = Heading::read(scope.order(), held)? else {
        return Ok(None);
    };
    let rest = hold(held, rest, heading.length)?;
    if held.len() < heading.length {
        return Ok(None);
    }
    let packet = PacketHead::of(scope.take_block(heading, held)?);
    let bytes = mem::replace(held, Vec::new(alloc));
    let block = Block {
        bytes: Listed::from(bytes),
        kind: heading.kind,
        order: heading.order,
        packet,
    };
    Ok(Some((block, rest)))
}

/// Keeps bytes of the piece until `size` bytes are kept, and returns the others.
fn hold<'a>(held: &mut Vec<u8>, piece: &'a [u8], size: usize) -> Result<&'a [u8], CaptureFault>
    ensures moves { IfOk result (λ rest. Moves held.old.items held.new.items piece.now rest.now) }
    ensures enough { IfOk result (λ rest. length held.new.items < size → rest.now ≡ []) }
    ensures no_more { OnOk result (length held.new.items ≤ max (length held.old.items) size) }
    ensures memory { IfErr result (λ fault. fault ≡ Memory) }
{
    let missing = size.saturating_sub(held.len()).min(piece.len());
    let (front, rest) = piece.split_at(missing);
    held.extend_from_slice(front)?;
    Ok(rest)
}
