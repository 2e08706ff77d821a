//! Requests for leases that have a success response, by key.

ghost use Rattle.std.specs.Prelude.{◌≡◌, ◌↔◌, ◌+◌, ℕ, IsTrue, IfOk, OnOk, Contains, Some, length};
ghost use Rattle.audit_model.specs.declared.sighting.Sighting.{Sighting as OneSighting};
ghost use Rattle.audit_model.specs.declared.address.Addr.{Addr as OneAddr};
ghost use Rattle.audit_stun.specs.declared.numbers.attribute.TheConstants as attributes;
ghost use Rattle.audit_stun.specs.declared.numbers.method.TheConstants as methods;
ghost use Rattle.audit_stun.specs.Parts.{parts_of};
ghost use Rattle.audit_sightings.specs.Intake.{taken, sighting_at};
ghost use Rattle.audit_rules.specs.Values.{Names, channel_number_of};
ghost use Rattle.audit_faults.specs.declared.keyed.Keyed.{Keyed as OneKeyed};
ghost use Rattle.audit_faults.specs.Grants.{IsCaptured, NamesIp, BindsIp};
ghost use Rattle.audit_faults.specs.Keyed.{AreKeyedBefore, IsKeyed, placed_as};
ghost use Rattle.audit_faults.specs.Leased.{IsLeaseMethod, Answers, IsRequestBy, AreAnswers, AreRequests, allocate_key as key_of_allocate, permission_key as key_of_permission, channel_key as key_of_channel};

use crate::keyed::{ByKey, Keyed, KeyedList, add_key, sort_keyed, span_of_key, wider};
use crate::lease_keys::{allocate_key, answer_key, channel_key, permission_key};
use crate::leased::lease_message;
use crate::values::{address_in, channel_number_in, message_of, same_id};
use audit_model::{Addr, Side, SightId, Sighting};
use audit_sightings::Intake;
use audit_stun::numbers::attribute::XOR_PEER_ADDRESS;
use audit_stun::numbers::method::ALLOCATE;
use audit_stun::{Class, Message, address};
use std::alloc::{AllocError, Global};

/// Whether the sighting of that id is a success response to the client, of the request's method and
/// transaction.
pub fn is_answer_at(intake: &Intake, sight: SightId, client: Addr, request: &Message<'_>) -> bool
    ensures { IsTrue result ↔ ((success : OneSighting) × (sighting_at (taken intake.now) sight ≡ Some success) × Answers client request.now success) }
{
    let Some(success) = intake.sighting(sight) else {
        return false;
    };
    if success.side != Side::Leaves || success.to != client {
        return false;
    }
    let Some(answer) = message_of(success.payload.as_slice(), Class::Success, request.method())
    else {
        return false;
    };
    same_id(&answer, request)
}

/// Whether a request for a lease has a success response.
fn is_answered(intake: &Intake, answers: ByKey<'_>, client: Addr, request: &Message<'_>) -> bool
    requires answers { AreAnswers (taken intake.now) answers }
    requires method { IsLeaseMethod (parts_of request.now).method }
    ensures { (success : OneSighting) → IsCaptured (taken intake.now) success → Answers client request.now success → IsTrue result }
{
    let key = answer_key(client, request);
    let span = span_of_key(answers.places, key, 0, u64::MAX);
    let mut place = span.past;
    'places: while span.first < place {
        place -= 1;
        if is_answer_at(intake, answers.places[place].sight, client, request) {
            return true;
        }
    }
    false
}

/// Adds the place of an Allocate request.
fn add_allocate(
    request: &Message<'_>,
    sighting: &Sighting,
    keyed: &mut Vec<Keyed>,
) -> Result<(), AllocError>
    ensures here { OnOk result ((parts_of request.now).method ≡ methods.ALLOCATE →
        Contains keyed.new.items (placed_as (key_of_allocate sighting.now.from (parts_of request.now).tid) sighting.now.id sighting.now)) }
    ensures kept { OnOk result ((one : OneKeyed) → Contains keyed.old.items one → Contains keyed.new.items one) }
{
    if request.method() != ALLOCATE {
        return Ok(());
    }
    add_key(allocate_key(sighting.from, request), sighting, keyed)?;
    Ok(())
}

/// Adds the places of a request by the peers that it names.
fn add_permissions(
    request: &Message<'_>,
    sighting: &Sighting,
    keyed: &mut Vec<Keyed>,
) -> Result<(), AllocError>
    ensures here { OnOk result ((ip : ℕ) → NamesIp request.now ip →
        Contains keyed.new.items (placed_as (key_of_permission sighting.now.from ip) sighting.now.id sighting.now)) }
    ensures kept { OnOk result ((one : OneKeyed) → Contains keyed.old.items one → Contains keyed.new.items one) }
{
    let mut peers = request.peers();
    'peers: while let Some(value) = peers.next() {
        let Some(peer) = address(value) else {
            return Ok(());
        };
        add_key(permission_key(sighting.from, peer.ip), sighting, keyed)?;
    }
    Ok(())
}

/// Adds the place of a request by its channel and the peer.
fn add_channel(
    request: &Message<'_>,
    peer: Addr,
    sighting: &Sighting,
    keyed: &mut Vec<Keyed>,
) -> Result<(), AllocError>
    ensures here { OnOk result ((number : ℕ) → channel_number_of (parts_of request.now) ≡ Some number →
        Contains keyed.new.items (placed_as (key_of_channel sighting.now.from number peer) sighting.now.id sighting.now)) }
    ensures kept { OnOk result ((one : OneKeyed) → Contains keyed.old.items one → Contains keyed.new.items one) }
{
    if let Some(number) = channel_number_in(request) {
        add_key(channel_key(sighting.from, number, peer), sighting, keyed)?;
    }
    Ok(())
}

/// Adds the places of a request for a channel. A success response to it grants a permission too.
fn add_bound(
    request: &Message<'_>,
    sighting: &Sighting,
    keyed: &mut Vec<Keyed>,
) -> Result<(), AllocError>
    ensures permission { OnOk result ((ip : ℕ) → BindsIp request.now ip →
        Contains keyed.new.items (placed_as (key_of_permission sighting.now.from ip) sighting.now.id sighting.now)) }
    ensures channel { OnOk result ((number : ℕ) (peer : OneAddr) → channel_number_of (parts_of request.now) ≡ Some number →
        Names attributes.XOR_PEER_ADDRESS (parts_of request.now) peer →
        Contains keyed.new.items (placed_as (key_of_channel sighting.now.from number peer) sighting.now.id sighting.now)) }
    ensures kept { OnOk result ((one : OneKeyed) → Contains keyed.old.items one → Contains keyed.new.items one) }
{
    let Some(peer) = address_in(request, XOR_PEER_ADDRESS) else {
        return Ok(());
    };
    add_key(permission_key(sighting.from, peer.ip), sighting, keyed)?;
    add_channel(request, peer, sighting, keyed)?;
    Ok(())
}

/// Adds the places of a request for a lease that has a success response.
fn add_request(
    intake: &Intake,
    answers: ByKey<'_>,
    sighting: &Sighting,
    keyed: &mut Vec<Keyed>,
) -> Result<(), AllocError>
    requires { AreAnswers (taken intake.now) answers }
    ensures here { OnOk result ((key : ℕ) → IsRequestBy (taken intake.now) key sighting.now → Contains keyed.new.items (placed_as key sighting.now.id sighting.now)) }
    ensures kept { OnOk result ((one : OneKeyed) → Contains keyed.old.items one → Contains keyed.new.items one) }
{
    if sighting.side != Side::Arrives {
        return Ok(());
    }
    let Some(request) = lease_message(sighting.payload.as_slice(), Class::Request) else {
        return Ok(());
    };
    if !is_answered(intake, answers, sighting.from, &request) {
        return Ok(());
    }
    add_allocate(&request, sighting, keyed)?;
    add_permissions(&request, sighting, keyed)?;
    add_bound(&request, sighting, keyed)?;
    Ok(())
}

/// Adds the places of an interface, and returns the width of the widest window.
fn add_row(
    intake: &Intake,
    answers: ByKey<'_>,
    iface: u32,
    width: u64,
    keyed: &mut Vec<Keyed>,
) -> Result<u64, AllocError>
    requires answers { AreAnswers (taken intake.now) answers }
    requires so_far { AreKeyedBefore (taken intake.now) (IsRequestBy (taken intake.now)) (record { iface = iface; index = 0 }) keyed.old.items width }
    ensures { IfOk result (λ widest. AreKeyedBefore (taken intake.now) (IsRequestBy (taken intake.now)) (record { iface = iface + 1; index = 0 }) keyed.new.items widest) }
{
    let mut widest = width;
    'sightings: for sighting in intake.interface(iface) {
        widest = wider(widest, sighting);
        add_request(intake, answers, sighting, keyed)?;
    }
    Ok(widest)
}

/// Adds the places of all interfaces, and returns the width of the widest window.
fn add_rows(intake: &Intake, answers: ByKey<'_>, keyed: &mut Vec<Keyed>) -> Result<u64, AllocError>
    requires { AreAnswers (taken intake.now) answers }
    ensures { IfOk result (λ width. AreKeyedBefore (taken intake.now) (IsRequestBy (taken intake.now))
        (record { iface = length (taken intake.now).interfaces; index = 0 }) keyed.new.items width) }
{
    let mut width = 0;
    'interfaces: for iface in 0..intake.interfaces() {
        width = add_row(intake, answers, iface, width, keyed)?;
    }
    Ok(width)
}

/// The requests for leases that have a success response, by what they request. It takes n log n
/// time.
pub fn requests_of(
    alloc: Global,
    intake: &Intake,
    answers: ByKey<'_>,
) -> Result<KeyedList, AllocError>
    requires { AreAnswers (taken intake.now) answers }
    ensures { IfOk result (λ requests. IsKeyed (taken intake.now) (IsRequestBy (taken intake.now)) requests.places.items requests.width) }
{
    let mut keyed = Vec::new(alloc);
    let width = add_rows(intake, answers, &mut keyed)?;
    sort_keyed(&mut keyed)?;
    Ok(KeyedList {
        places: keyed,
        width,
    })
}
