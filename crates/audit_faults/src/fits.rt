//! Whether a response's content fits its request.

ghost use Rattle.std.specs.Prelude.{◌≡◌, ◌⊎◌, ◌↔◌, IsTrue};
ghost use Rattle.audit_model.specs.declared.sighting.Sighting.{Sighting as OneSighting};
ghost use Rattle.audit_stun.specs.Message.{IsMessage};
ghost use Rattle.audit_stun.specs.Parts.{parts_of};
ghost use Rattle.audit_faults.specs.Fits.{NamesClient, FitsLifetime, RequestsChannel, SuccessFits, Challenges, RequestsOther, ErrorFits, IsFit};

use crate::values::{
    address_in, channel_number_in, error_code_in, lifetime_in, message_in, transport_in,
};
use audit_model::{Addr, Sighting};
use audit_stun::numbers::attribute::{
    NONCE, REALM, UNKNOWN_ATTRIBUTES, XOR_MAPPED_ADDRESS, XOR_PEER_ADDRESS,
};
use audit_stun::numbers::method::{ALLOCATE, BINDING, CHANNEL_BIND, CREATE_PERMISSION, REFRESH};
use audit_stun::{Class, Message};

/// The protocol number of UDP in REQUESTED-TRANSPORT (RFC 8656, section 18.8).
const UDP: u8 = 17;

/// The range of channel numbers (RFC 8656, section 12).
const LEAST_CHANNEL: u16 = 0x4000;

const GREATEST_CHANNEL: u16 = 0x4FFF;

/// Whether a success response has the client's own address.
fn names_client(response: &Message<'_>, client: Addr) -> bool
    ensures { IsTrue result ↔ NamesClient response.now client }
{
    address_in(response, XOR_MAPPED_ADDRESS) == Some(client)
}

/// Whether a Refresh success response has a lifetime, which is 0 exactly if the request's is 0.
fn fits_lifetime(request: &Message<'_>, response: &Message<'_>) -> bool
    ensures { IsTrue result ↔ FitsLifetime request.now response.now }
{
    let Some(seconds) = lifetime_in(response) else {
        return false;
    };
    if lifetime_in(request) == Some(0) {
        seconds == 0
    } else {
        seconds != 0
    }
}

/// Whether a request has a channel number and a peer.
fn requests_channel(request: &Message<'_>) -> bool
    ensures { IsTrue result ↔ RequestsChannel request.now }
{
    let Some(number) = channel_number_in(request) else {
        return false;
    };
    let Some(_peer) = address_in(request, XOR_PEER_ADDRESS) else {
        return false;
    };
    LEAST_CHANNEL <= number && number <= GREATEST_CHANNEL
}

/// Whether a success response fits its request.
fn success_fits(request: &Message<'_>, response: &Message<'_>, client: Addr) -> bool
    ensures { IsTrue result ↔ SuccessFits (parts_of response.now).method client request.now response.now }
{
    let method = response.method();
    if method == BINDING || method == ALLOCATE {
        return names_client(response, client);
    }
    if method == REFRESH {
        return fits_lifetime(request, response);
    }
    if method == CHANNEL_BIND {
        return requests_channel(request);
    }
    method == CREATE_PERMISSION
}

/// Whether an error response has the realm and a nonce.
fn challenges(response: &Message<'_>) -> bool
    ensures { IsTrue result ↔ Challenges response.now }
{
    response.first(REALM).is_some() && response.first(NONCE).is_some()
}

/// Whether it is an Allocate request for another transport than UDP.
fn requests_other(request: &Message<'_>) -> bool
    ensures { IsTrue result ↔ RequestsOther request.now }
{
    let Some(protocol) = transport_in(request) else {
        return false;
    };
    request.method() == ALLOCATE && protocol != UDP
}

/// Whether an error response fits its request.
fn error_fits(request: &Message<'_>, response: &Message<'_>) -> bool
    ensures { IsTrue result ↔ ErrorFits request.now response.now }
{
    let Some(code) = error_code_in(response) else {
        return false;
    };
    if code == 401 || code == 438 {
        return challenges(response);
    }
    if code == 420 {
        return response.first(UNKNOWN_ATTRIBUTES).is_some();
    }
    if code == 442 {
        return requests_other(request);
    }
    true
}

/// Whether a response fits its request.
pub fn is_fit(arrival: &Sighting, departure: &Sighting) -> bool
    requires arrival { IsMessage arrival.now.payload (parts_of arrival.now.payload) }
    requires departure { IsMessage departure.now.payload (parts_of departure.now.payload) }
    ensures { IsTrue result ↔ IsFit arrival.now departure.now }
{
    let Some(response) = message_in(departure.payload.as_slice()) else {
        return false;
    };
    let Some(request) = message_in(arrival.payload.as_slice()) else {
        return false;
    };
    match response.class() {
        Class::Success => success_fits(&request, &response, departure.to),
        Class::Error => error_fits(&request, &response),
        Class::Request => true,
        Class::Indication => true,
    }
}
