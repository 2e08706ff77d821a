//! Whether an arrival may have caused a departure, by the contents of the two.

ghost use Rattle.std.specs.Prelude.{◌≡◌, ◌↔◌, ℕ, IsTrue, MatchOption};
ghost use Rattle.audit_faults.specs.Causes.{Responds, SentOn, SentInChannel, Delivered, DeliveredInChannel, InReach};

use crate::values::{address_in, message_of, response_in, same_id};
use audit_model::{Policy, Sighting};
use audit_stun::numbers::attribute::{DATA, XOR_PEER_ADDRESS};
use audit_stun::numbers::method::{DATA as DATA_METHOD, SEND};
use audit_stun::{Class, channel_data};

/// The most bytes of padding that may follow the data (RFC 8656, section 12.5).
const MOST_PADDING: usize = 3;

/// Whether the departure is a response that goes back to where the request came from, with its
/// method and transaction id.
pub fn responds(policy: &Policy, arrival: &Sighting, departure: &Sighting) -> bool
    ensures { IsTrue result ↔ Responds policy.now arrival.now departure.now }
{
    if !policy.listens(departure.from)
        || arrival.to != departure.from
        || arrival.from != departure.to
    {
        return false;
    }
    let Some(response) = response_in(departure.payload.as_slice()) else {
        return false;
    };
    let Some(request) = message_of(
        arrival.payload.as_slice(),
        Class::Request,
        response.method(),
    ) else {
        return false;
    };
    same_id(&response, &request)
}

/// Whether the departure has the data of a Send indication, and goes to the peer that it names.
pub fn sent_on(policy: &Policy, arrival: &Sighting, departure: &Sighting) -> bool
    ensures { IsTrue result ↔ SentOn policy.now arrival.now departure.now }
{
    if !policy.listens(arrival.to) || !policy.relays(departure.from) {
        return false;
    }
    let Some(indication) = message_of(arrival.payload.as_slice(), Class::Indication, SEND) else {
        return false;
    };
    if address_in(&indication, XOR_PEER_ADDRESS) != Some(departure.to) {
        return false;
    }
    indication.first(DATA) == Some(departure.payload.as_slice())
}

/// The channel number, if the departure has the data of a client's ChannelData.
pub fn sent_in_channel(policy: &Policy, arrival: &Sighting, departure: &Sighting) -> Option<u16>
    ensures found { MatchOption result ((number : ℕ) → SentInChannel policy.now number arrival.now departure.now → ⊥)
        (λ number. SentInChannel policy.now number arrival.now departure.now) }
    ensures only { (number other : ℕ) → SentInChannel policy.now number arrival.now departure.now →
        SentInChannel policy.now other arrival.now departure.now → number ≡ other }
{
    if !policy.listens(arrival.to) || !policy.relays(departure.from) {
        return None;
    }
    let (number, bytes, _) = channel_data(arrival.payload.as_slice())?;
    if bytes == departure.payload.as_slice() {
        Some(number)
    } else {
        None
    }
}

/// Whether the departure is a Data indication that names the peer, with the data that the peer
/// sent.
pub fn delivered(policy: &Policy, arrival: &Sighting, departure: &Sighting) -> bool
    ensures { IsTrue result ↔ Delivered policy.now arrival.now departure.now }
{
    if !policy.listens(departure.from) || !policy.relays(arrival.to) {
        return false;
    }
    let Some(indication) = message_of(departure.payload.as_slice(), Class::Indication, DATA_METHOD)
    else {
        return false;
    };
    if address_in(&indication, XOR_PEER_ADDRESS) != Some(arrival.from) {
        return false;
    }
    indication.first(DATA) == Some(arrival.payload.as_slice())
}

/// The channel number, if the departure is ChannelData to a client with the data that a peer sent.
pub fn delivered_in_channel(
    policy: &Policy,
    arrival: &Sighting,
    departure: &Sighting,
) -> Option<u16>
    ensures found { MatchOption result ((number : ℕ) → DeliveredInChannel policy.now number arrival.now departure.now → ⊥)
        (λ number. DeliveredInChannel policy.now number arrival.now departure.now) }
    ensures only { (number other : ℕ) → DeliveredInChannel policy.now number arrival.now departure.now →
        DeliveredInChannel policy.now other arrival.now departure.now → number ≡ other }
{
    if !policy.listens(departure.from) || !policy.relays(arrival.to) {
        return None;
    }
    let (number, bytes, past) = channel_data(departure.payload.as_slice())?;
    if past <= MOST_PADDING && bytes == arrival.payload.as_slice() {
        Some(number)
    } else {
        None
    }
}

/// Whether the departure may have left at most `hold` after the arrival.
pub fn in_reach(hold: u64, arrival: &Sighting, departure: &Sighting) -> bool
    ensures { IsTrue result ↔ InReach hold arrival.now departure.now }
{
    arrival.lo <= departure.hi && departure.lo <= arrival.hi.saturating_add(hold)
}
