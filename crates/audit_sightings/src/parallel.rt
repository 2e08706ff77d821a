//! Reads the frames of packets by many threads.

ghost use Rattle.std.specs.Prelude.{◌≡◌, ◌<◌, ◌+◌, ◌/◌, [], ◌++◌, ℕ, List, length, map, IfOk, IfErr, OnOk};
ghost use Rattle.std.specs.List.{AllZip};
ghost use Rattle.audit_pcapng.specs.declared.packet.Packet.{Packet};
ghost use Rattle.audit_pcapng.specs.Captures.{BeginsWith};
ghost use Rattle.audit_pcapng.specs.Packets.{packet_of};
ghost use Rattle.audit_pcapng.specs.Readers.{StandsFor};
ghost use Rattle.audit_pcapng.specs.Steps.{IsAt, EndsBy};
ghost use Rattle.audit_sightings.specs.Sightings.{TakesIn, Stops};
ghost use Rattle.audit_sightings.specs.Stretch.{read_of, stretch_at};
ghost use Rattle.rayon.specs.Numbers.{nat_range};

use crate::add_packets::take_stretch;
use crate::by_interface::ByInterface;
use crate::fault::IntakeFaultKind;
use crate::stretch::{STRETCH, Stretch, part_of, read_stretch};
use audit_model::Policy;
use audit_pcapng::{BlockReader, CaptureFault, PacketSlice};
use rayon::prelude::*;
use std::alloc::{AllocError, Global};
use std::thread::Threads;

/// The packets of the rest of a piece, up to the first fault of a block. Their bytes are not
/// copied.
pub fn gather<'a>(
    reader: &mut BlockReader,
    rest: &'a [u8],
    packets: &mut Vec<PacketSlice<'a>>,
) -> Result<(), CaptureFault>
    requires { packets.old.items ≡ [] }
    ensures ok { (text : List ℕ) (before : List Packet) → IsAt reader.old text before rest.now →
        OnOk result (StandsFor reader.new text (before ++ map packet_of packets.new.items)) }
    ensures err { (text : List ℕ) (before : List Packet) → IsAt reader.old text before rest.now →
        IfErr result (EndsBy text (before ++ map packet_of packets.new.items)) }
    ensures begins { (text : List ℕ) (before : List Packet) → IsAt reader.old text before rest.now →
        BeginsWith text (before ++ map packet_of packets.new.items) }
{
    let mut rest = rest;
    'steps: while let Some((packet, behind)) = reader.next(rest)? {
        packets.push(packet)?;
        rest = behind;
    }
    Ok(())
}

/// The input that many threads read.
#[derive(Clone, Copy)]
struct Reading<'r, 'p> {
    alloc: Global,
    policy: &'r Policy,
    packets: &'r [PacketSlice<'p>],
}

/// Reads the packets of each stretch, by as many threads as there are processors.
fn read_stretches<R: Threads + Sync>(
    rt: &R,
    alloc: Global,
    policy: &Policy,
    packets: &[PacketSlice<'_>],
) -> Result<Vec<Stretch>, AllocError>
    ensures { IfOk result (λ stretches. AllZip (λ number stretch. stretch ≡ read_of policy.now (stretch_at packets.now number))
        (nat_range 0 (length packets.now / 2048 + 1)) stretches.items) }
{
    let reading = Reading {
        alloc,
        policy,
        packets,
    };
    let stretches = packets.len() / STRETCH + 1;
    (0..stretches)
        .into_par_iter()
        .with_min_len(1)
        .map(
            |number: usize| -> Result<Stretch, AllocError>
                ensures { IfOk result (λ stretch. stretch ≡ read_of reading.entry.policy.now (stretch_at reading.entry.packets.now number)) }
            {
                read_stretch(
                    reading.alloc,
                    reading.policy,
                    part_of(reading.packets, number),
                )
            },
        )
        .collect::<Result<Vec<Stretch>, AllocError>>(rt, alloc)?
}

/// Adds packets of a file, in order, up to the first that is refused. Their frames are read by many
/// threads.
pub fn take_by_threads<R: Threads + Sync>(
    rt: &R,
    alloc: Global,
    policy: &Policy,
    interfaces: &mut ByInterface,
    file: u32,
    packets: &[PacketSlice<'_>],
) -> Result<(), IntakeFaultKind>
    requires { file < 16 }
    ensures ok { OnOk result (TakesIn policy.now interfaces.old file (map packet_of packets.now) interfaces.new) }
    ensures err { IfErr result (Stops policy.now interfaces.old file (map packet_of packets.now) interfaces.new) }
{
    if packets.is_empty() {
        return Ok(());
    }
    let Ok(stretches) = read_stretches(rt, alloc, policy, packets) else {
        return Err(IntakeFaultKind::Memory);
    };
    for number in 0..packets.len() / STRETCH + 1 {
        let part = part_of(packets, number);
        take_stretch(policy, interfaces, file, part, &stretches[number])?;
    }
    Ok(())
}
