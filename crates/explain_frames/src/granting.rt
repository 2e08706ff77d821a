//! Frames that grant a relayed address and aren't judged.

use audit_model::{Addr, Policy};
use audit_packets::{Seen, slice_datagram};
use audit_pcapng::PacketSlice;
use audit_stun::numbers::attribute::XOR_RELAYED_ADDRESS;
use audit_stun::numbers::method::ALLOCATE;
use audit_stun::{Class, address, message};
use prep_cut::FarEnd;
use prep_records::note_granted_address;
use std::alloc::{AllocError, Global};

/// The way of an Allocate success response that isn't one of the service's datagrams.
#[derive(Clone, Copy, Debug)]
pub enum GrantSource {
    /// To a client by TCP or IPv6.
    Elsewhere(FarEnd),
    /// Over UDP, by an endpoint that the policy doesn't name.
    Unlisted { server: Addr, client: Addr },
}

/// A frame that grants a relayed address.
#[derive(Clone, Copy, Debug)]
pub struct GrantFrame {
    pub source: GrantSource,
    /// The number of its file, from 0.
    pub file: u16,
    /// Its number in its file, from 1.
    pub number: u64,
}

/// The relayed address that a payload grants, if it is an Allocate success response.
pub fn granted_address(payload: &[u8]) -> Option<Addr> {
    let response = message(payload)?;
    if response.class() != Class::Success || response.method() != ALLOCATE {
        return None;
    }
    address(response.first(XOR_RELAYED_ADDRESS)?)
}

/// A relayed address that is granted by a packet not of the service.
#[derive(Clone, Copy, Debug)]
pub(crate) struct GrantedBy {
    pub(crate) relayed: Addr,
    pub(crate) source: GrantSource,
}

/// The grants of a frame of TCP or IPv6.
fn elsewhere(
    alloc: Global,
    policy: &Policy,
    packet: PacketSlice<'_>,
) -> Result<Vec<GrantedBy>, AllocError> {
    let mut found = Vec::new(alloc);
    note_granted_address(policy, packet.stamp, packet.bytes, &mut found)?;
    let mut all = Vec::new(alloc);
    for one in &found {
        all.push(GrantedBy {
            relayed: one.relayed,
            source: GrantSource::Elsewhere(one.client),
        })?;
    }
    Ok(all)
}

/// The grants of a packet that isn't of the service.
pub(crate) fn granted_in(
    alloc: Global,
    policy: &Policy,
    packet: PacketSlice<'_>,
) -> Result<Vec<GrantedBy>, AllocError> {
    let Seen::Udp { from, to, payload } = slice_datagram(packet) else {
        return elsewhere(alloc, policy, packet);
    };
    let mut all = Vec::new(alloc);
    if let Some(relayed) = granted_address(payload) {
        all.push(GrantedBy {
            relayed,
            source: GrantSource::Unlisted {
                server: from,
                client: to,
            },
        })?;
    }
    Ok(all)
}
