//! Reads packets together, with one arena for their payloads.

ghost use Rattle.std.specs.Prelude.{◌≡◌, ◌+◌, ◌<◌, ◌++◌, ℕ, List, length, IfOk, OnOk, vec_len};
ghost use Rattle.audit_sightings.specs.Stretch.{found_in, read_of, stretch_at, IsOwned, LiesWithin};
ghost use Rattle.audit_sightings.specs.View.{view_found};

use crate::fault::IntakeFaultKind;
use crate::owned_datagram::OwnedDatagram;
use crate::service_datagram::{ServiceDatagram, service_datagram};
use audit_model::{Addr, Payload, Policy, Side};
use audit_pcapng::PacketSlice;
use std::alloc::{AllocError, Global};
use std::marker::Model;
use std::sync::Arc;

/// The most packets that are read together. Their payloads have about 130 MiB then, far below 2^32
/// bytes.
pub const STRETCH: usize = 2_048;

/// A datagram of the service whose payload is a range of an arena.
#[derive(Clone, Copy)]
pub struct ArenaDatagram {
    /// Nanoseconds since 1970.
    stamp: u64,
    from: Addr,
    to: Addr,
    start: u32,
    len: u32,
    side: Side,
}

/// The results of packets, in their order.
#[derive(Drop)]
pub struct Stretch {
    arena: Arc<Vec<u8>>,
    founds: Vec<Result<Option<ArenaDatagram>, IntakeFaultKind>>,
}

impl Model for Stretch {
    ghost use Rattle.std.specs.Prelude.{List, Option, Result, map, vec_len, All};
    ghost use Rattle.audit_sightings.specs.declared.fault.IntakeFaultKind.{IntakeFaultKind as Fault};
    ghost use Rattle.audit_sightings.specs.ServiceDatagram.{ServiceDatagram as Datagram};
    ghost use Rattle.audit_sightings.specs.Stretch.{found_in, LiesWithin};

    ghost Value = { List (Result (Option Datagram) Fault) };

    ghost view = { λ stretch. map (found_in stretch.arena.value.items) stretch.founds.items };

    ghost invariant = { λ stretch. All (LiesWithin (vec_len stretch.arena.value)) stretch.founds.items };
}

/// The result of a packet, with its payload after those of the arena.
fn store(
    arena: &mut Vec<u8>,
    found: Result<Option<ServiceDatagram<'_>>, IntakeFaultKind>,
) -> Result<Result<Option<ArenaDatagram>, IntakeFaultKind>, AllocError>
    ensures found { IfOk result (λ stored. found_in arena.new.items stored ≡ view_found found.entry) }
    ensures within { IfOk result (LiesWithin (vec_len arena.new)) }
    ensures grows { OnOk result ((more : List ℕ) × (arena.new.items ≡ arena.old.items ++ more)) }
{
    let kept = match found {
        Ok(Some(kept)) => kept,
        Ok(None) => return Ok(Ok(None)),
        Err(fault) => return Ok(Err(fault)),
    };
    let (Ok(start), Ok(len)) = (
        u32::try_from(arena.len()),
        u32::try_from(kept.payload.len()),
    ) else {
        return Err(AllocError);
    };
    arena.extend_from_slice(kept.payload)?;
    Ok(Ok(Some(ArenaDatagram {
        stamp: kept.stamp,
        from: kept.from,
        to: kept.to,
        start,
        len,
        side: kept.side,
    })))
}

/// The number of bytes of the packets, or the greatest number.
fn bytes_of(packets: &[PacketSlice<'_>]) -> usize {
    let mut bytes = 0usize;
    'packets: for packet in packets {
        bytes = bytes.saturating_add(packet.bytes.len());
    }
    bytes
}

/// Reads packets. It allocates three times, and takes the bytes of their payloads and 48 for each
/// packet.
pub fn read_stretch(
    alloc: Global,
    policy: &Policy,
    packets: &[PacketSlice<'_>],
) -> Result<Stretch, AllocError>
    ensures { IfOk result (λ stretch. stretch ≡ read_of policy.now packets.now) }
{
    let mut arena = Vec::with_capacity(alloc, bytes_of(packets))?;
    let mut founds = Vec::with_capacity(alloc, packets.len())?;
    'packets: for packet in packets {
        founds.push(store(&mut arena, service_datagram(policy, *packet))?)?;
    }
    arena.shrink_to_fit();
    Ok(Stretch {
        arena: Arc::new(alloc, arena)?,
        founds,
    })
}

impl Stretch {
    ghost use Rattle.std.specs.Prelude.{slice_index_or, Ok, None};

    /// The result of the packet at that place.
    pub fn found(&self, at: usize) -> Result<Option<OwnedDatagram>, IntakeFaultKind>
        requires { at < length self.now }
        ensures { IsOwned (slice_index_or self.now at (Ok None)) result }
    {
        match self.founds[at] {
            Ok(Some(kept)) => Ok(Some(OwnedDatagram {
                payload: Payload::of(&self.arena, kept.start, kept.len)?,
                stamp: kept.stamp,
                from: kept.from,
                to: kept.to,
                side: kept.side,
            })),
            Ok(None) => Ok(None),
            Err(fault) => Err(fault),
        }
    }
}

/// The packets of the stretch of that number; none after the last.
pub fn part_of<'r, 'p>(packets: &'r [PacketSlice<'p>], number: usize) -> &'r [PacketSlice<'p>]
    ensures { result.now ≡ stretch_at packets.now number }
{
    let start = packets.len().min(number.saturating_mul(STRETCH));
    let end = packets.len().min(start.saturating_add(STRETCH));
    &packets[start..end]
}
