//! For which client the data is that the server sends to a client.

use crate::grants::{Grant, Grants};
use audit_model::{Addr, Side, SightId, Sighting};
use audit_sightings::Intake;
use audit_stun::numbers::attribute::DATA;
use audit_stun::{Class, channel_data, message};
use std::alloc::{AllocError, Global};
use std::collections::BTreeSet;

/// How many arrivals of the same data are compared with a departure at most, so that the cost is
/// bounded.
const MOST_COMPARED: usize = 16;

/// An arrival at a relayed address.
#[derive(Clone, Copy, PartialEq, Eq, PartialOrd, Ord)]
struct Arrival {
    /// Equal data has the same digest.
    digest: u64,
    stamp: u64,
    sight: SightId,
}

impl Arrival {
    /// The arrival of a datagram with this data.
    fn of(sighting: &Sighting, data: &[u8]) -> Self {
        Arrival {
            digest: digest_of(data),
            stamp: sighting.stamp,
            sight: sighting.id,
        }
    }
}

/// Data that was for one client and left for another.
#[derive(Clone, Copy, Debug)]
pub struct Misdelivery {
    /// The arrival of the data.
    pub arrival: SightId,
    /// The grant of the relayed address at which it arrived.
    pub grant: Grant,
    /// Whether the receiver sends anything to a listen address.
    pub has_sent: bool,
}

/// The facts of captures about relayed addresses and their clients.
#[derive(Drop)]
pub struct Owners<'a> {
    intake: &'a Intake,
    grants: Grants,
    /// The addresses that send something to a listen address.
    senders: BTreeSet<Addr>,
    /// The arrivals at relayed addresses, by digest, then in the order of their stamps.
    arrivals: Vec<Arrival>,
    /// The same for data that clients send.
    sent: Vec<Arrival>,
}

/// Whether a datagram is at a relayed address of the policy.
fn is_relayed(intake: &Intake, sighting: &Sighting) -> bool {
    intake.policy().relays(match sighting.side {
        Side::Arrives => sighting.to,
        Side::Leaves => sighting.from,
    })
}

/// Whether a payload is a DTLS record (RFC 7983).
pub fn is_dtls(payload: &[u8]) -> bool {
    matches!(payload, [20..=63, ..])
}

/// Whether a departure is a response to a client.
pub fn is_response(payload: &[u8]) -> bool {
    match message(payload) {
        Some(message) => matches!(message.class(), Class::Success | Class::Error),
        None => false,
    }
}

/// Whether any datagram of the captures is at a relayed address of the policy.
pub fn has_relayed(intake: &Intake) -> bool {
    for iface in 0..intake.interfaces() {
        for sighting in intake.interface(iface) {
            if is_relayed(intake, sighting) {
                return true;
            }
        }
    }
    false
}

/// FNV-1a of data, in 64 bits. Data with equal digests is compared as a whole.
fn digest_of(data: &[u8]) -> u64 {
    let mut digest = 0xcbf2_9ce4_8422_2325u64;
    for byte in data {
        digest = (digest ^ u64::from(*byte)).wrapping_mul(0x0000_0100_0000_01b3);
    }
    digest
}

/// The data of ChannelData or of an indication.
fn data_in(payload: &[u8]) -> Option<&[u8]> {
    if let Some((_, data, _)) = channel_data(payload) {
        return Some(data);
    }
    let indication = message(payload)?;
    if indication.class() != Class::Indication {
        return None;
    }
    indication.first(DATA)
}

impl<'a> Owners<'a> {
    /// The facts of all captures. It takes n log n in the sightings.
    pub fn of(alloc: Global, intake: &'a Intake) -> Result<Self, AllocError> {
        let mut owners = Owners {
            intake,
            grants: Grants::of(alloc, intake)?,
            senders: BTreeSet::new(alloc),
            arrivals: Vec::new(alloc),
            sent: Vec::new(alloc),
        };
        for iface in 0..intake.interfaces() {
            for sighting in intake.interface(iface) {
                owners.note(sighting)?;
            }
        }
        owners.arrivals.sort_unstable();
        owners.sent.sort_unstable();
        Ok(owners)
    }

    fn note(&mut self, sighting: &Sighting) -> Result<(), AllocError> {
        if sighting.side == Side::Leaves {
            return Ok(());
        }
        let payload = sighting.payload.as_slice();
        if self.intake.policy().relays(sighting.to) {
            self.arrivals.push(Arrival::of(sighting, payload))?;
            return Ok(());
        }
        self.senders.insert(sighting.from)?;
        if let Some(data) = data_in(payload) {
            self.sent.push(Arrival::of(sighting, data))?;
        }
        Ok(())
    }

    /// The first grant of a relayed address.
    pub fn granted(&self, relayed: Addr) -> Option<Grant> {
        self.grants.first_of(relayed)
    }

    /// The nearest arrival, within `hold` before a departure to a client, of the same data at a
    /// relayed address of another client. `None` if an arrival has it, too, at an address of the
    /// receiver, or at one that no capture grants, or if more arrivals may be in reach than are
    /// compared. It takes log n in the sightings.
    pub fn misdelivery(&self, departure: &Sighting) -> Option<Misdelivery> {
        if departure.side != Side::Leaves || !self.intake.policy().listens(departure.from) {
            return None;
        }
        let data = data_in(departure.payload.as_slice())?;
        let equal = equal_before(&self.arrivals, data, departure);
        if equal.len() == MOST_COMPARED && self.caused(*equal.first()?, departure).is_some() {
            return None;
        }
        let mut nearest = None;
        for arrival in equal {
            let Some(sighting) = self.caused(*arrival, departure) else {
                continue;
            };
            if sighting.payload.as_slice() != data {
                continue;
            }
            let grant = self.grants.last_before(sighting.to, sighting.hi)?;
            if grant.client == departure.to {
                return None;
            }
            nearest = Some(Misdelivery {
                arrival: arrival.sight,
                grant,
                has_sent: self.senders.contains(&departure.to),
            });
        }
        nearest
    }

    /// The nearest datagram, within `hold` before a departure to a client, by which another client
    /// sends the same data: clients that relay to each other through the server. It takes log n in
    /// the sightings.
    pub fn sent_by_client(&self, departure: &Sighting) -> Option<SightId> {
        if departure.side != Side::Leaves || !self.intake.policy().listens(departure.from) {
            return None;
        }
        let data = data_in(departure.payload.as_slice())?;
        let mut nearest = None;
        for arrival in equal_before(&self.sent, data, departure) {
            let Some(sighting) = self.caused(*arrival, departure) else {
                continue;
            };
            let is_equal = data_in(sighting.payload.as_slice()) == Some(data);
            if is_equal && sighting.from != departure.to {
                nearest = Some(arrival.sight);
            }
        }
        nearest
    }

    /// An arrival that came in time for a departure.
    fn caused(&self, arrival: Arrival, departure: &Sighting) -> Option<&'a Sighting> {
        let intake = self.intake;
        let sighting = intake.sighting(arrival.sight)?;
        let last = sighting.hi.saturating_add(intake.policy().hold);
        if last < departure.lo || departure.hi < sighting.lo {
            None
        } else {
            Some(sighting)
        }
    }
}

/// The last arrivals with the digest of some data that came before a departure left.
fn equal_before<'v>(arrivals: &'v [Arrival], data: &[u8], departure: &Sighting) -> &'v [Arrival] {
    let digest = digest_of(data);
    let first = arrivals.partition_point(|arrival| arrival.digest < digest);
    let behind = arrivals.partition_point(|arrival| (arrival.digest, arrival.stamp)
        <= (digest, departure.hi));
    let from = behind.saturating_sub(MOST_COMPARED).max(first);
    arrivals.get(from..behind).unwrap_or(&[])
}
