//! The translation of a block.

ghost use Rattle.std.specs.Prelude.{◌≡◌, ◌++◌, None, OnOk, IfOk, IfErr};
ghost use Rattle.audit_packets.specs.View.{view};
ghost use Rattle.prep_translate.specs.Renaming.{outside_of, fragment_of, cut_of, left_out, fault_of, Refuses};
ghost use Rattle.prep_translate.specs.Frames.{with_ips, turned, moved_by, moved_of, moved_in, written_of, fault_in};

use crate::fault::{TranslateFault, Untranslatable};
use crate::renaming::Renaming;
use crate::tally::{Ends, Moved};
use audit_packets::Seen;
use prep_blocks::Block;
use prep_frames::{BEFORE_PACKET, content_place, frame_of, seen_of};
use std::alloc::AllocError;

/// The offset of the two addresses in an IPv4 header.
const BEFORE_ADDRESSES: usize = 12;

/// The size of the two addresses, in bytes.
const ADDRESSES: usize = 8;

/// Adds the bytes, with the eight bytes at this offset replaced by these two addresses.
#[tactic(auto, using(std::proofs::lemmas::List::drop_min, std::proofs::lemmas::List::take_min))]
fn put_with_ips(
    bytes: &[u8],
    at: usize,
    from: u32,
    to: u32,
    out: &mut Vec<u8>,
) -> Result<(), AllocError>
    ensures { OnOk result (out.new.items ≡ out.old.items ++ with_ips at from to bytes.now) }
{
    let (front, rest) = bytes.split_at(at.min(bytes.len()));
    let (_, behind) = rest.split_at(ADDRESSES.min(rest.len()));
    out.extend_from_slice(front)?;
    out.extend_from_slice(&from.to_be_bytes())?;
    out.extend_from_slice(&to.to_be_bytes())?;
    out.extend_from_slice(behind)?;
    Ok(())
}

/// The translation of a datagram between these ends, if an end of it is translated.
fn moved(renaming: &Renaming, ends: Ends) -> Option<Moved>
    ensures { result ≡ moved_by renaming.now ends.from ends.to }
{
    let (outer_from, outer_to) = (renaming.outer_of(ends.from), renaming.outer_of(ends.to));
    if outer_from.is_none() && outer_to.is_none() {
        return None;
    }
    let outer = Ends {
        from: outer_from.unwrap_or(ends.from),
        to: outer_to.unwrap_or(ends.to),
    };
    Some(Moved {
        is_out: outer_from.is_some(),
        is_inside: renaming.is_service(outer.from) && renaming.is_service(outer.to),
        ends: outer,
    })
}

/// Why a datagram is refused of which nothing is translated.
fn outside(renaming: &Renaming, ends: Ends) -> Option<Untranslatable>
    ensures { result ≡ outside_of renaming.now ends.from ends.to }
{
    if renaming.is_outside(ends.from) {
        return Some(Untranslatable::Outside(ends.from));
    }
    if renaming.is_outside(ends.to) {
        return Some(Untranslatable::Outside(ends.to));
    }
    None
}

/// Why a fragment is refused.
fn fragment(renaming: &Renaming, from: u32, to: u32) -> Option<Untranslatable>
    ensures { result ≡ fragment_of renaming.now from to }
{
    if renaming.is_inner(from) || renaming.is_inner(to) {
        return Some(Untranslatable::Fragment);
    }
    None
}

/// Why a truncated datagram is refused.
fn cut(renaming: &Renaming, ips: Option<(u32, u32)>) -> Option<Untranslatable>
    ensures { result ≡ cut_of renaming.now ips }
{
    let Some((from, to)) = ips else {
        return Some(Untranslatable::Cut);
    };
    if renaming.is_inner(from) || renaming.is_inner(to) {
        return Some(Untranslatable::Cut);
    }
    None
}

/// Adds a block unchanged, if it may stay so.
fn keep(
    block: &Block,
    fault: Option<Untranslatable>,
    out: &mut Vec<u8>,
) -> Result<Option<Moved>, TranslateFault>
    ensures written { OnOk result (out.new.items ≡ out.old.items ++ block.now.bytes) }
    ensures told { IfOk result (λ moved. moved ≡ None) }
    ensures fits { OnOk result (fault ≡ None) }
    ensures err { IfErr result (λ e. Refuses e fault) }
{
    if let Some(fault) = fault {
        return Err(TranslateFault::Datagram(fault));
    }
    out.extend_from_slice(block.bytes.as_slice())?;
    Ok(None)
}

/// Adds the block of a datagram, with its ends translated.
fn translate_datagram(
    renaming: &Renaming,
    block: &Block,
    frame: &[u8],
    ends: Ends,
    out: &mut Vec<u8>,
) -> Result<Option<Moved>, TranslateFault>
    ensures written { OnOk result (out.new.items ≡ out.old.items ++ turned block.now.bytes frame.now (moved_by renaming.now ends.from ends.to)) }
    ensures told { IfOk result (λ moved. moved ≡ moved_by renaming.now ends.from ends.to) }
    ensures fits { OnOk result (left_out renaming.now ends.from ends.to ≡ None) }
    ensures err { IfErr result (λ e. Refuses e (left_out renaming.now ends.from ends.to)) }
{
    let Some(moved) = moved(renaming, ends) else {
        return keep(block, outside(renaming, ends), out);
    };
    let at = BEFORE_PACKET + content_place(frame) + BEFORE_ADDRESSES;
    let outer = moved.ends;
    put_with_ips(block.bytes.as_slice(), at, outer.from.ip, outer.to.ip, out)?;
    Ok(Some(moved))
}

/// Adds the block of a frame with this content.
fn translate_seen(
    renaming: &Renaming,
    block: &Block,
    frame: &[u8],
    seen: Seen<'_>,
    out: &mut Vec<u8>,
) -> Result<Option<Moved>, TranslateFault>
    ensures written { OnOk result (out.new.items ≡ out.old.items ++ turned block.now.bytes frame.now (moved_of renaming.now (view seen.entry))) }
    ensures told { IfOk result (λ moved. moved ≡ moved_of renaming.now (view seen.entry)) }
    ensures fits { OnOk result (fault_of renaming.now (view seen.entry) ≡ None) }
    ensures err { IfErr result (λ e. Refuses e (fault_of renaming.now (view seen.entry))) }
{
    match seen {
        Seen::Udp { from, to, .. } => {
            translate_datagram(renaming, block, frame, Ends { from, to }, out)
        }
        Seen::Other => keep(block, None, out),
        Seen::Fragment { from, to } => keep(block, fragment(renaming, from, to), out),
        Seen::Cut { ips } => keep(block, cut(renaming, ips), out),
    }
}

/// Adds the block as it is on the outer side, and returns the translated ends. The addresses of a
/// UDP datagram over IPv4 are translated, four bytes each; all other bytes are kept, including
/// checksums. A datagram that can't be translated is refused. The cost is the size of the block,
/// and of the translations and the policy.
pub fn translate(
    renaming: &Renaming,
    block: &Block,
    out: &mut Vec<u8>,
) -> Result<Option<Moved>, TranslateFault>
    ensures written { OnOk result (out.new.items ≡ out.old.items ++ written_of renaming.now block.now) }
    ensures told { IfOk result (λ moved. moved ≡ moved_in renaming.now block.now) }
    ensures fits { OnOk result (fault_in renaming.now block.now ≡ None) }
    ensures err { IfErr result (λ e. Refuses e (fault_in renaming.now block.now)) }
{
    let Some(head) = block.packet else {
        return keep(block, None, out);
    };
    let frame = frame_of(block, head);
    translate_seen(renaming, block, frame, seen_of(frame, head), out)
}
