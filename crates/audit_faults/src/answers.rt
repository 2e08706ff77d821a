//! Success responses that may grant leases, by key.

ghost use Rattle.std.specs.Prelude.{◌≡◌, ◌+◌, ℕ, IfOk, OnOk, Contains, length};
ghost use Rattle.audit_model.specs.declared.address.Addr.{Addr as OneAddr};
ghost use Rattle.audit_stun.specs.declared.numbers.attribute.TheConstants as attributes;
ghost use Rattle.audit_stun.specs.declared.numbers.method.TheConstants as methods;
ghost use Rattle.audit_stun.specs.Parts.{parts_of};
ghost use Rattle.audit_sightings.specs.Intake.{taken};
ghost use Rattle.audit_rules.specs.Values.{Names};
ghost use Rattle.audit_faults.specs.declared.keyed.Keyed.{Keyed as OneKeyed};
ghost use Rattle.audit_faults.specs.Keyed.{AreKeyedBefore, IsKeyed, placed_as};
ghost use Rattle.audit_faults.specs.Leased.{IsAnswerBy, AreAnswers, answer_key as key_of_answer, beginning_key as key_of_beginning, relayed_key as key_of_relayed};

use crate::keyed::{Keyed, KeyedList, add_key, sort_keyed, wider};
use crate::lease_keys::{answer_key, beginning_key, relayed_key};
use crate::leased::lease_message;
use crate::values::address_in;
use audit_model::{Side, Sighting};
use audit_sightings::Intake;
use audit_stun::numbers::attribute::XOR_RELAYED_ADDRESS;
use audit_stun::numbers::method::ALLOCATE;
use audit_stun::{Class, Message};
use std::alloc::{AllocError, Global};

/// Adds the place of a success response by its transaction.
fn add_answer(
    success: &Message<'_>,
    sighting: &Sighting,
    keyed: &mut Vec<Keyed>,
) -> Result<(), AllocError>
    ensures here { OnOk result (Contains keyed.new.items
        (placed_as (key_of_answer (parts_of success.now).method sighting.now.to (parts_of success.now).tid) sighting.now.id sighting.now)) }
    ensures kept { OnOk result ((one : OneKeyed) → Contains keyed.old.items one → Contains keyed.new.items one) }
{
    let key = answer_key(sighting.to, success);
    add_key(key, sighting, keyed)?;
    Ok(())
}

/// Adds the place of an Allocate success response by its relayed address.
fn add_relayed(
    success: &Message<'_>,
    sighting: &Sighting,
    keyed: &mut Vec<Keyed>,
) -> Result<(), AllocError>
    ensures here { OnOk result ((relayed : OneAddr) → Names attributes.XOR_RELAYED_ADDRESS (parts_of success.now) relayed →
        Contains keyed.new.items (placed_as (key_of_relayed sighting.now.to relayed) sighting.now.id sighting.now)) }
    ensures kept { OnOk result ((one : OneKeyed) → Contains keyed.old.items one → Contains keyed.new.items one) }
{
    if let Some(relayed) = address_in(success, XOR_RELAYED_ADDRESS) {
        add_key(relayed_key(sighting.to, relayed), sighting, keyed)?;
    }
    Ok(())
}

/// Adds the places of an Allocate success response, by its client and by its relayed address.
fn add_allocated(
    success: &Message<'_>,
    sighting: &Sighting,
    keyed: &mut Vec<Keyed>,
) -> Result<(), AllocError>
    ensures begins { OnOk result ((parts_of success.now).method ≡ methods.ALLOCATE →
        Contains keyed.new.items (placed_as (key_of_beginning sighting.now.to) sighting.now.id sighting.now)) }
    ensures by_address { OnOk result ((parts_of success.now).method ≡ methods.ALLOCATE → (relayed : OneAddr) →
        Names attributes.XOR_RELAYED_ADDRESS (parts_of success.now) relayed →
        Contains keyed.new.items (placed_as (key_of_relayed sighting.now.to relayed) sighting.now.id sighting.now)) }
    ensures kept { OnOk result ((one : OneKeyed) → Contains keyed.old.items one → Contains keyed.new.items one) }
{
    if success.method() != ALLOCATE {
        return Ok(());
    }
    add_key(beginning_key(sighting.to), sighting, keyed)?;
    add_relayed(success, sighting, keyed)?;
    Ok(())
}

/// Adds the places of a success response that may grant a lease.
fn add_success(sighting: &Sighting, keyed: &mut Vec<Keyed>) -> Result<(), AllocError>
    ensures here { OnOk result ((key : ℕ) → IsAnswerBy key sighting.now → Contains keyed.new.items (placed_as key sighting.now.id sighting.now)) }
    ensures kept { OnOk result ((one : OneKeyed) → Contains keyed.old.items one → Contains keyed.new.items one) }
{
    if sighting.side != Side::Leaves {
        return Ok(());
    }
    let Some(success) = lease_message(sighting.payload.as_slice(), Class::Success) else {
        return Ok(());
    };
    add_answer(&success, sighting, keyed)?;
    add_allocated(&success, sighting, keyed)?;
    Ok(())
}

/// Adds the places of an interface, and returns the width of the widest window.
fn add_row(
    intake: &Intake,
    iface: u32,
    width: u64,
    keyed: &mut Vec<Keyed>,
) -> Result<u64, AllocError>
    requires { AreKeyedBefore (taken intake.now) IsAnswerBy (record { iface = iface; index = 0 }) keyed.old.items width }
    ensures { IfOk result (λ widest. AreKeyedBefore (taken intake.now) IsAnswerBy (record { iface = iface + 1; index = 0 }) keyed.new.items widest) }
{
    let mut widest = width;
    'sightings: for sighting in intake.interface(iface) {
        widest = wider(widest, sighting);
        add_success(sighting, keyed)?;
    }
    Ok(widest)
}

/// Adds the places of all interfaces, and returns the width of the widest window.
fn add_rows(intake: &Intake, keyed: &mut Vec<Keyed>) -> Result<u64, AllocError>
    ensures { IfOk result (λ width. AreKeyedBefore (taken intake.now) IsAnswerBy
        (record { iface = length (taken intake.now).interfaces; index = 0 }) keyed.new.items width) }
{
    let mut width = 0;
    'interfaces: for iface in 0..intake.interfaces() {
        width = add_row(intake, iface, width, keyed)?;
    }
    Ok(width)
}

/// The success responses that may grant leases, by what they grant. It takes n log n time.
pub fn answers_of(alloc: Global, intake: &Intake) -> Result<KeyedList, AllocError>
    ensures { IfOk result (λ answers. IsKeyed (taken intake.now) IsAnswerBy answers.places.items answers.width) }
{
    let mut keyed = Vec::new(alloc);
    let width = add_rows(intake, &mut keyed)?;
    sort_keyed(&mut keyed)?;
    Ok(KeyedList {
        places: keyed,
        width,
    })
}
