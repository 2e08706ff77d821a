//! Keys by which the arrivals are found that may have caused a departure: each of them has one.

ghost use Rattle.std.specs.Prelude.{◌≡◌, ℕ};
ghost use Rattle.audit_model.specs.declared.sighting.Sighting.{Sighting as OneSighting};
ghost use Rattle.audit_model.specs.declared.sighting.Side.TheVariants as sides;
ghost use Rattle.audit_faults.specs.ArrivalKeys.{HasKey, HasOwnedKey};
ghost use Rattle.audit_faults.specs.Causes.{Delivered, DeliveredInChannel, Responds, SentInChannel, SentOn};
ghost use Rattle.audit_faults.specs.Leased.{address_number};

use crate::cause_keys::{
    delivered_in_channel_key, delivered_key, exchange_key, sent_in_channel_key, sent_key,
};
use crate::values::{address_in, channel_bytes, message_of, response_in};
use audit_model::{Policy, Sighting};
use audit_stun::Class;
use audit_stun::numbers::attribute::{DATA, XOR_PEER_ADDRESS};
use audit_stun::numbers::method::DATA as DATA_METHOD;

/// That of the requests to which the departure is a response.
pub fn key_of_requests(policy: &Policy, departure: &Sighting) -> Option<u64>
    ensures { (arrival : OneSighting) → arrival.side ≡ sides.Arrives → Responds policy.now arrival departure.now → HasKey policy.now result arrival }
{
    if !policy.listens(departure.from) {
        return None;
    }
    let Some(response) = response_in(departure.payload.as_slice()) else {
        return None;
    };
    Some(exchange_key(departure.to, departure.from, &response))
}

/// That of the Send indications of which the departure has the data.
pub fn key_of_sends(policy: &Policy, departure: &Sighting) -> Option<u64>
    ensures { (arrival : OneSighting) → arrival.side ≡ sides.Arrives → SentOn policy.now arrival departure.now → HasOwnedKey policy.now result (address_number arrival.from) arrival }
{
    if !policy.relays(departure.from) {
        return None;
    }
    Some(sent_key(departure.to, departure.payload.as_slice()))
}

/// That of the clients' ChannelData of which the departure has the data.
pub fn key_of_channel_data(policy: &Policy, departure: &Sighting) -> Option<u64>
    ensures { (number : ℕ) (arrival : OneSighting) → arrival.side ≡ sides.Arrives → SentInChannel policy.now number arrival departure.now → HasOwnedKey policy.now result (address_number arrival.from) arrival }
{
    if !policy.relays(departure.from) {
        return None;
    }
    Some(sent_in_channel_key(departure.payload.as_slice()))
}

/// That of the peers' datagrams of which the departure, a Data indication, has the data.
pub fn key_of_named_peer(policy: &Policy, departure: &Sighting) -> Option<u64>
    ensures { (arrival : OneSighting) → arrival.side ≡ sides.Arrives → Delivered policy.now arrival departure.now → HasOwnedKey policy.now result (address_number arrival.to) arrival }
{
    if !policy.listens(departure.from) {
        return None;
    }
    let payload = departure.payload.as_slice();
    let Some(indication) = message_of(payload, Class::Indication, DATA_METHOD) else {
        return None;
    };
    let Some(peer) = address_in(&indication, XOR_PEER_ADDRESS) else {
        return None;
    };
    let Some(data) = indication.first(DATA) else {
        return None;
    };
    Some(delivered_key(peer, data))
}

/// That of the peers' datagrams of which the departure, ChannelData, has the data.
pub fn key_of_any_peer(policy: &Policy, departure: &Sighting) -> Option<u64>
    ensures { (number : ℕ) (arrival : OneSighting) → arrival.side ≡ sides.Arrives → DeliveredInChannel policy.now number arrival departure.now → HasOwnedKey policy.now result (address_number arrival.to) arrival }
{
    if !policy.listens(departure.from) {
        return None;
    }
    let Some(data) = channel_bytes(departure.payload.as_slice()) else {
        return None;
    };
    Some(delivered_in_channel_key(data))
}
