//! Adds packets to the sightings.

ghost use Rattle.std.specs.Prelude.{◌≡◌, ◌<◌, [], ◌∷◌, map, OnOk, OnErr, IfErr};
ghost use Rattle.audit_pcapng.specs.Packets.{packet_of};
ghost use Rattle.audit_sightings.specs.ServiceDatagram.{service_datagram_of};
ghost use Rattle.audit_sightings.specs.Sightings.{TakesIn, IsRefused, Stops};
ghost use Rattle.audit_sightings.specs.Stretch.{read_of, IsOwned};

use crate::by_interface::{ByInterface, INTERFACES_OF_FILE};
use crate::fault::IntakeFaultKind;
use crate::owned_datagram::OwnedDatagram;
use crate::stretch::{STRETCH, Stretch, part_of, read_stretch};
use audit_model::Policy;
use audit_pcapng::{Packet, PacketSlice};
use std::alloc::Global;

/// Adds the result of a packet of a file. After a fault nothing is changed.
fn take_found(
    policy: &Policy,
    interfaces: &mut ByInterface,
    file: u32,
    packet: PacketSlice<'_>,
    found: Result<Option<OwnedDatagram>, IntakeFaultKind>,
) -> Result<(), IntakeFaultKind>
    requires file { file < 16 }
    requires found { IsOwned (service_datagram_of policy.now (packet_of packet)) found }
    ensures ok { OnOk result (TakesIn policy.now interfaces.old file (packet_of packet.entry ∷ []) interfaces.new) }
    ensures err { IfErr result (IsRefused policy.now interfaces.old (packet_of packet.entry)) }
    ensures unchanged { OnErr result (interfaces.new ≡ interfaces.old) }
{
    let seen = match found {
        Ok(seen) => seen,
        Err(fault) => return Err(fault),
    };
    let Some(kept) = seen else {
        return Ok(());
    };
    if packet.iface >= INTERFACES_OF_FILE {
        return Err(IntakeFaultKind::Limit);
    }
    let iface = INTERFACES_OF_FILE * file + packet.iface;
    interfaces.push(iface, policy.skew_for(iface), kept)
}

/// Adds packets of a file, which were read with these results, in order, up to the first that is
/// refused.
pub fn take_stretch(
    policy: &Policy,
    interfaces: &mut ByInterface,
    file: u32,
    packets: &[PacketSlice<'_>],
    stretch: &Stretch,
) -> Result<(), IntakeFaultKind>
    requires file { file < 16 }
    requires read { stretch.now ≡ read_of policy.now packets.now }
    ensures ok { OnOk result (TakesIn policy.now interfaces.old file (map packet_of packets.now) interfaces.new) }
    ensures err { IfErr result (Stops policy.now interfaces.old file (map packet_of packets.now) interfaces.new) }
{
    for i in 0..packets.len() {
        take_found(policy, interfaces, file, packets[i], stretch.found(i))?;
    }
    Ok(())
}

/// Adds packets of a file, in order, up to the first that is refused. They are read together.
fn take_together(
    alloc: Global,
    policy: &Policy,
    interfaces: &mut ByInterface,
    file: u32,
    packets: &[PacketSlice<'_>],
) -> Result<(), IntakeFaultKind>
    requires { file < 16 }
    ensures ok { OnOk result (TakesIn policy.now interfaces.old file (map packet_of packets.now) interfaces.new) }
    ensures err { IfErr result (Stops policy.now interfaces.old file (map packet_of packets.now) interfaces.new) }
{
    if packets.is_empty() {
        return Ok(());
    }
    match read_stretch(alloc, policy, packets) {
        Ok(stretch) => take_stretch(policy, interfaces, file, packets, &stretch),
        Err(_) => Err(IntakeFaultKind::Memory),
    }
}

/// Adds packets of a file, in order, up to the first that is refused, stretch by stretch.
pub fn take_in_turn(
    alloc: Global,
    policy: &Policy,
    interfaces: &mut ByInterface,
    file: u32,
    packets: &[PacketSlice<'_>],
) -> Result<(), IntakeFaultKind>
    requires { file < 16 }
    ensures ok { OnOk result (TakesIn policy.now interfaces.old file (map packet_of packets.now) interfaces.new) }
    ensures err { IfErr result (Stops policy.now interfaces.old file (map packet_of packets.now) interfaces.new) }
{
    for number in 0..packets.len() / STRETCH + 1 {
        take_together(alloc, policy, interfaces, file, part_of(packets, number))?;
    }
    Ok(())
}

/// Adds packets of a file, in order, up to the first that is refused.
pub fn take_packets(
    alloc: Global,
    policy: &Policy,
    interfaces: &mut ByInterface,
    file: u32,
    packets: &[Packet],
) -> Result<(), IntakeFaultKind>
    requires { file < 16 }
    ensures ok { OnOk result (TakesIn policy.now interfaces.old file packets.now interfaces.new) }
    ensures err { IfErr result (Stops policy.now interfaces.old file packets.now interfaces.new) }
{
    'packets: for packet in packets {
        take_together(alloc, policy, interfaces, file, &[packet.as_slice()])?;
    }
    Ok(())
}
