//! Reads consecutive blocks.

ghost use Rattle.std.specs.Prelude.{◌≡◌, ◌≢◌, ◌<◌, ◌≤◌, [], ◌++◌, length, max, IfOk, IfErr, IfSome, IfNone, OnOk, OnErr, List, ℕ, MatchOption};
ghost use Rattle.std.specs.Option.{option_to_list};
ghost use Rattle.audit_pcapng.specs.Packets.{given_of};
ghost use Rattle.audit_pcapng.specs.declared.fault.CaptureFault.TheVariants.{Memory};
ghost use Rattle.audit_pcapng.specs.Headings.{heading, least_length};
ghost use Rattle.audit_pcapng.specs.Captures.{IsCut};
ghost use Rattle.audit_pcapng.specs.Stretches.{Adds, Declines, Consumes, Stops};

use crate::fault::CaptureFault;
use crate::heading::{HEADING_LENGTH, Heading};
use crate::packet::{Packet, PacketSlice};
use crate::scope::Scope;
use std::alloc::Global;

/// Reads the whole blocks at the front, and returns the bytes after them.
pub fn take_blocks<'a>(
    scope: &mut Scope,
    alloc: Global,
    bytes: &'a [u8],
    out: &mut Vec<Packet>,
) -> Result<&'a [u8], CaptureFault>
    ensures cut { IfOk result (λ rest. IsCut scope.new rest.now) }
    ensures ok { IfOk result (λ rest. Consumes scope.old bytes.now out.old.items scope.new out.new.items rest.now) }
    ensures err { IfErr result (Stops scope.old bytes.now out.old.items out.new.items) }
{
    let mut rest = bytes;
    for _ in 0..bytes.len() {
        let Some(heading) = Heading::read(scope.order(), rest)? else {
            return Ok(rest);
        };
        if rest.len() < heading.length {
            return Ok(rest);
        }
        let (block, after) = rest.split_at(heading.length);
        take_block(scope, alloc, heading, block, out)?;
        rest = after;
    }
    Ok(rest)
}

/// Reads a whole block, and adds its packet if it has one.
fn take_block(
    scope: &mut Scope,
    alloc: Global,
    heading: Heading,
    block: &[u8],
    out: &mut Vec<Packet>,
) -> Result<(), CaptureFault>
    requires { least_length heading.kind ≤ length block.now }
    ensures ok { OnOk result (Adds scope.old heading block.now out.old.items scope.new out.new.items) }
    ensures err { IfErr result (Declines scope.old heading block.now) }
    ensures unchanged { OnErr result (out.new.items ≡ out.old.items) }
{
    if let Some(packet) = scope.take_block(heading, block)? {
        out.push(packet.to_packet(alloc)?)?;
    }
    Ok(())
}

/// Reads blocks up to the first that has a packet. Returns that packet and the bytes after it; if
/// there is none, the bytes that are left, which are less than a block.
pub fn next_packet<'a>(
    scope: &mut Scope,
    bytes: &'a [u8],
) -> Result<(Option<PacketSlice<'a>>, &'a [u8]), CaptureFault>
    ensures ok { IfOk result (λ step. Consumes scope.old bytes.now [] scope.new (option_to_list (given_of step.0)) step.1.now) }
    ensures cut { IfOk result (λ step. IfNone step.0 (IsCut scope.new step.1.now)) }
    ensures shorter { IfOk result (λ step. IfSome step.0 (λ _. length step.1.now < length bytes.now)) }
    ensures err { IfErr result (Stops scope.old bytes.now [] []) }
{
    let mut rest = bytes;
    for _ in 0..bytes.len() {
        let Some(heading) = Heading::read(scope.order(), rest)? else {
            return Ok((None, rest));
        };
        if rest.len() < heading.length {
            return Ok((None, rest));
        }
        let (block, after) = rest.split_at(heading.length);
        if let Some(packet) = scope.take_block(heading, block)? {
            return Ok((Some(packet), after));
        }
        rest = after;
    }
    Ok((None, rest))
}

/// Completes the block that is held with the bytes that it lacks, and reads it once it is whole.
/// Returns the bytes after it, or nothing if it is still not whole.
pub fn complete<'a>(
    scope: &mut Scope,
    held: &mut Vec<u8>,
    alloc: Global,
    piece: &'a [u8],
    out: &mut Vec<Packet>,
) -> Result<Option<&'a [u8]>, CaptureFault>
    ensures cut { IfOk result (λ behind. MatchOption behind
        (IsCut scope.new held.new.items)
        (λ rest. held.new.items ≡ [])) }
    ensures ok { IsCut scope.old held.old.items → IfOk result (λ behind. MatchOption behind
        (Consumes scope.old (held.old.items ++ piece.now) out.old.items scope.new out.new.items held.new.items)
        (λ rest. Consumes scope.old (held.old.items ++ piece.now) out.old.items scope.new out.new.items rest.now)) }
    ensures err { IsCut scope.old held.old.items →
        IfErr result (Stops scope.old (held.old.items ++ piece.now) out.old.items out.new.items) }
{
    let rest = hold(held, piece, HEADING_LENGTH)?;
    let Some(heading) = Heading::read(scope.order(), held)? else {
        return Ok(None);
    };
    let rest = hold(held, rest, heading.length)?;
    if held.len() < heading.length {
        return Ok(None);
    }
    take_block(scope, alloc, heading, held, out)?;
    held.clear();
    Ok(Some(rest))
}

/// Holds bytes of the piece until `size` bytes are held, and returns the others.
fn hold<'a>(held: &mut Vec<u8>, piece: &'a [u8], size: usize) -> Result<&'a [u8], CaptureFault>
    ensures all { IfOk result (λ rest. held.new.items ++ rest.now ≡ held.old.items ++ piece.now) }
    ensures enough { IfOk result (λ rest. length held.new.items < size → rest.now ≡ []) }
    ensures no_more { OnOk result (length held.new.items ≤ max (length held.old.items) size) }
    ensures grows { OnOk result ((kept : List ℕ) × (held.new.items ≡ held.old.items ++ kept)) }
    ensures memory { IfErr result (λ fault. fault ≡ Memory) }
{
    let missing = size.saturating_sub(held.len()).min(piece.len());
    let (front, rest) = piece.split_at(missing);
    held.extend_from_slice(front)?;
    Ok(rest)
}
