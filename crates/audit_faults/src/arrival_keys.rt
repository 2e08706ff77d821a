//! Arrivals by key: by what they have in common with the departures that they may have caused.

ghost use Rattle.std.specs.Prelude.{◌≡◌, ◌⊎◌, ◌+◌, ℕ, List, IsTrue, IfOk, OnOk, Contains, length};
ghost use Rattle.audit_model.specs.Policy.{listens, relays};
ghost use Rattle.audit_model.specs.declared.address.Addr.{Addr as OneAddr};
ghost use Rattle.audit_stun.specs.declared.class.Class.TheVariants as classes;
ghost use Rattle.audit_stun.specs.declared.numbers.attribute.TheConstants as attributes;
ghost use Rattle.audit_stun.specs.Parts.{parts_of};
ghost use Rattle.audit_sightings.specs.Intake.{taken};
ghost use Rattle.audit_rules.specs.Values.{Has, Names};
ghost use Rattle.audit_faults.specs.declared.keyed.Keyed.{Keyed as OneKeyed};
ghost use Rattle.audit_faults.specs.ArrivalKeys.{IsArrivalBy, IsChannelDataUnder, IsEither, IsPeerDataUnder, IsRequestUnder, IsSendUnder, exchange_key as key_of_exchange, sent_key as key_of_sent};
ghost use Rattle.audit_faults.specs.Keyed.{AreKeyedBefore, IsKeyed, placed_as};

use crate::cause_keys::{
    delivered_in_channel_key, delivered_key, exchange_key, owned_key, sent_in_channel_key, sent_key,
};
use crate::keyed::{Keyed, KeyedList, add_key, sort_keyed, wider};
use crate::lease_keys::address_number;
use crate::values::{address_in, channel_bytes, message_in};
use audit_model::{Addr, Policy, Side, Sighting};
use audit_sightings::Intake;
use audit_stun::numbers::attribute::{DATA, XOR_PEER_ADDRESS};
use audit_stun::{Class, Message};
use std::alloc::{AllocError, Global};

/// Adds the place of a request.
fn add_request(
    said: &Message<'_>,
    sighting: &Sighting,
    keyed: &mut Vec<Keyed>,
) -> Result<(), AllocError>
    ensures here { OnOk result ((parts_of said.now).class ≡ classes.Request →
        Contains keyed.new.items (placed_as (key_of_exchange sighting.now.from sighting.now.to (parts_of said.now).tid) sighting.now.id sighting.now)) }
    ensures kept { OnOk result ((one : OneKeyed) → Contains keyed.old.items one → Contains keyed.new.items one) }
{
    if said.class() != Class::Request {
        return Ok(());
    }
    let key = exchange_key(sighting.from, sighting.to, said);
    add_key(key, sighting, keyed)?;
    Ok(())
}

/// Adds the places of data: by its plain key, and by the one with its owner.
fn add_data(
    key: u64,
    owner: Addr,
    sighting: &Sighting,
    keyed: &mut Vec<Keyed>,
) -> Result<(), AllocError>
    ensures here { OnOk result ((either : ℕ) → IsEither either key owner → Contains keyed.new.items (placed_as either sighting.now.id sighting.now)) }
    ensures kept { OnOk result ((one : OneKeyed) → Contains keyed.old.items one → Contains keyed.new.items one) }
{
    add_key(key, sighting, keyed)?;
    add_key(owned_key(key, address_number(owner)), sighting, keyed)?;
    Ok(())
}

/// Adds the places of a message with data for a peer, as a Send indication.
fn add_send(
    said: &Message<'_>,
    sighting: &Sighting,
    keyed: &mut Vec<Keyed>,
) -> Result<(), AllocError>
    ensures here { OnOk result ((peer : OneAddr) (bytes : List ℕ) → Names attributes.XOR_PEER_ADDRESS (parts_of said.now) peer →
        Has attributes.DATA (parts_of said.now) bytes → (key : ℕ) → IsEither key (key_of_sent peer bytes) sighting.now.from → Contains keyed.new.items (placed_as key sighting.now.id sighting.now)) }
    ensures kept { OnOk result ((one : OneKeyed) → Contains keyed.old.items one → Contains keyed.new.items one) }
{
    let Some(data) = said.first(DATA) else {
        return Ok(());
    };
    let Some(peer) = address_in(said, XOR_PEER_ADDRESS) else {
        return Ok(());
    };
    add_data(sent_key(peer, data), sighting.from, sighting, keyed)?;
    Ok(())
}

/// Adds the places of a message.
fn add_message(sighting: &Sighting, keyed: &mut Vec<Keyed>) -> Result<(), AllocError>
    ensures here { OnOk result ((key : ℕ) → IsRequestUnder key sighting.now ⊎ IsSendUnder key sighting.now → Contains keyed.new.items (placed_as key sighting.now.id sighting.now)) }
    ensures kept { OnOk result ((one : OneKeyed) → Contains keyed.old.items one → Contains keyed.new.items one) }
{
    let Some(said) = message_in(sighting.payload.as_slice()) else {
        return Ok(());
    };
    add_request(&said, sighting, keyed)?;
    add_send(&said, sighting, keyed)?;
    Ok(())
}

/// Adds the places of ChannelData.
fn add_channel(sighting: &Sighting, keyed: &mut Vec<Keyed>) -> Result<(), AllocError>
    ensures here { OnOk result ((key : ℕ) → IsChannelDataUnder key sighting.now → Contains keyed.new.items (placed_as key sighting.now.id sighting.now)) }
    ensures kept { OnOk result ((one : OneKeyed) → Contains keyed.old.items one → Contains keyed.new.items one) }
{
    if let Some(data) = channel_bytes(sighting.payload.as_slice()) {
        add_data(sent_in_channel_key(data), sighting.from, sighting, keyed)?;
    }
    Ok(())
}

/// Adds the places of a datagram that a client may have sent.
fn add_of_client(
    policy: &Policy,
    sighting: &Sighting,
    keyed: &mut Vec<Keyed>,
) -> Result<(), AllocError>
    ensures here { OnOk result ((key : ℕ) → IsTrue (listens policy.now sighting.now.to) → IsRequestUnder key sighting.now ⊎ IsSendUnder key sighting.now ⊎ IsChannelDataUnder key sighting.now
        → Contains keyed.new.items (placed_as key sighting.now.id sighting.now)) }
    ensures kept { OnOk result ((one : OneKeyed) → Contains keyed.old.items one → Contains keyed.new.items one) }
{
    if !policy.listens(sighting.to) {
        return Ok(());
    }
    add_message(sighting, keyed)?;
    add_channel(sighting, keyed)?;
    Ok(())
}

/// Adds the places of a datagram that a peer may have sent.
fn add_of_peer(
    policy: &Policy,
    sighting: &Sighting,
    keyed: &mut Vec<Keyed>,
) -> Result<(), AllocError>
    ensures here { OnOk result ((key : ℕ) → IsTrue (relays policy.now sighting.now.to) → IsPeerDataUnder key sighting.now
        → Contains keyed.new.items (placed_as key sighting.now.id sighting.now)) }
    ensures kept { OnOk result ((one : OneKeyed) → Contains keyed.old.items one → Contains keyed.new.items one) }
{
    if !policy.relays(sighting.to) {
        return Ok(());
    }
    let data = sighting.payload.as_slice();
    let named = delivered_key(sighting.from, data);
    add_data(named, sighting.to, sighting, keyed)?;
    let in_channel = delivered_in_channel_key(data);
    add_data(in_channel, sighting.to, sighting, keyed)?;
    Ok(())
}

/// Adds the places of an arrival.
fn add_arrival(
    policy: &Policy,
    sighting: &Sighting,
    keyed: &mut Vec<Keyed>,
) -> Result<(), AllocError>
    ensures here { OnOk result ((key : ℕ) → IsArrivalBy policy.now key sighting.now → Contains keyed.new.items (placed_as key sighting.now.id sighting.now)) }
    ensures kept { OnOk result ((one : OneKeyed) → Contains keyed.old.items one → Contains keyed.new.items one) }
{
    if sighting.side != Side::Arrives {
        return Ok(());
    }
    add_of_client(policy, sighting, keyed)?;
    add_of_peer(policy, sighting, keyed)?;
    Ok(())
}

/// Adds the places of an interface, and returns the width of the widest window.
fn add_row(
    intake: &Intake,
    iface: u32,
    width: u64,
    keyed: &mut Vec<Keyed>,
) -> Result<u64, AllocError>
    requires { AreKeyedBefore (taken intake.now) (IsArrivalBy (taken intake.now).policy) (record { iface = iface; index = 0 }) keyed.old.items width }
    ensures { IfOk result (λ widest. AreKeyedBefore (taken intake.now) (IsArrivalBy (taken intake.now).policy) (record { iface = iface + 1; index = 0 }) keyed.new.items widest) }
{
    let mut widest = width;
    'sightings: for sighting in intake.interface(iface) {
        widest = wider(widest, sighting);
        add_arrival(intake.policy(), sighting, keyed)?;
    }
    Ok(widest)
}

/// Adds the places of all interfaces, and returns the width of the widest window.
fn add_rows(intake: &Intake, keyed: &mut Vec<Keyed>) -> Result<u64, AllocError>
    ensures { IfOk result (λ width. AreKeyedBefore (taken intake.now) (IsArrivalBy (taken intake.now).policy)
        (record { iface = length (taken intake.now).interfaces; index = 0 }) keyed.new.items width) }
{
    let mut width = 0;
    'interfaces: for iface in 0..intake.interfaces() {
        width = add_row(intake, iface, width, keyed)?;
    }
    Ok(width)
}

/// The arrivals by key. It takes n log n time, and memory for three numbers of each of their keys.
/// A request has one key, data of a client two, and a datagram of a peer four.
pub fn arrivals_of(alloc: Global, intake: &Intake) -> Result<KeyedList, AllocError>
    ensures { IfOk result (λ arrivals. IsKeyed (taken intake.now) (IsArrivalBy (taken intake.now).policy) arrivals.places.items arrivals.width) }
{
    let mut keyed = Vec::new(alloc);
    let width = add_rows(intake, &mut keyed)?;
    sort_keyed(&mut keyed)?;
    Ok(KeyedList {
        places: keyed,
        width,
    })
}
