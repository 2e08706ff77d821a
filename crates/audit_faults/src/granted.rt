//! Whether a lease that lasted may have been granted, searched by key.

ghost use Rattle.std.specs.Prelude.{◌≡◌, ◌↔◌, ◌+◌, ◌≤◌, ℕ, IsTrue, Some};
ghost use Rattle.audit_model.specs.declared.sighting.Sighting.{Sighting as OneSighting};
ghost use Rattle.audit_stun.specs.Message.{IsMessage};
ghost use Rattle.audit_stun.specs.Parts.{parts_of};
ghost use Rattle.audit_sightings.specs.Intake.{taken, sighting_at};
ghost use Rattle.audit_faults.specs.Grants.{IsCaptured, IsGranted, Succeeds, HasGrant};
ghost use Rattle.audit_faults.specs.Leased.{IsLeaseMethod, IsRequestBy, AreAnswers, AreLeases, answer_key as key_of_answer};

use crate::fault::Grant;
use crate::keyed::{ByKey, span_of_key};
use crate::lease_keys::answer_key;
use crate::leased::Leases;
use crate::leases::{least_request, requests, succeeds};
use crate::values::message_in;
use audit_model::{Addr, SightId, Sighting};
use audit_sightings::Intake;

/// The key of a success response to the client's request.
fn answer_key_to(client: Addr, request: &[u8]) -> u64
    requires { IsMessage request.now (parts_of request.now) }
    ensures { result ≡ key_of_answer (parts_of request.now).method client (parts_of request.now).tid }
{
    let Some(said) = message_in(request) else {
        return 0;
    };
    answer_key(client, &said)
}

/// The least first moment of a window that is no wider than `width`, and ends no earlier than a
/// moment.
fn narrowly_before(moment: u64, width: u64) -> u64
    ensures { (lo hi : ℕ) → moment ≤ hi → hi ≤ lo + width → result ≤ lo }
{
    moment.saturating_sub(width)
}

/// Whether the sighting of that id is the success response to the request.
fn is_success_at(
    intake: &Intake,
    sight: SightId,
    grant: &Grant,
    arrival: &Sighting,
    request: &Sighting,
) -> bool
    requires { IsMessage request.now.payload (parts_of request.now.payload) }
    ensures { IsTrue result ↔ ((success : OneSighting) × (sighting_at (taken intake.now) sight ≡ Some success)
        × Succeeds (taken intake.now).policy grant.now arrival.now request.now success) }
{
    let Some(success) = intake.sighting(sight) else {
        return false;
    };
    succeeds(intake.policy(), grant, arrival, request, success)
}

/// Whether the success response to the request was captured. The last one is tried first.
fn is_succeeded(
    intake: &Intake,
    answers: ByKey<'_>,
    grant: &Grant,
    arrival: &Sighting,
    request: &Sighting,
) -> bool
    requires answers { AreAnswers (taken intake.now) answers }
    requires message { IsMessage request.now.payload (parts_of request.now.payload) }
    requires method { IsLeaseMethod (parts_of request.now.payload).method }
    ensures { IsTrue result ↔ ((success : OneSighting) × IsCaptured (taken intake.now) success
        × Succeeds (taken intake.now).policy grant.now arrival.now request.now success) }
{
    let key = answer_key_to(grant.client, request.payload.as_slice());
    let first = narrowly_before(request.lo, answers.width);
    let span = span_of_key(answers.places, key, first, u64::MAX);
    let mut place = span.past;
    'places: while span.first < place {
        place -= 1;
        if is_success_at(intake, answers.places[place].sight, grant, arrival, request) {
            return true;
        }
    }
    false
}

/// Whether the request is for the lease, and its success response was captured.
fn is_granted(
    intake: &Intake,
    answers: ByKey<'_>,
    grant: &Grant,
    arrival: &Sighting,
    departure: &Sighting,
    request: &Sighting,
) -> bool
    requires { AreAnswers (taken intake.now) answers }
    ensures { IsTrue result ↔ IsGranted (taken intake.now) grant.now arrival.now departure.now request.now }
{
    requests(intake.policy(), grant, arrival, departure, request)
        && message_in(request.payload.as_slice()).is_some()
        && is_succeeded(intake, answers, grant, arrival, request)
}

/// Whether the sighting of that id is such a request.
fn is_granted_at(
    intake: &Intake,
    answers: ByKey<'_>,
    sight: SightId,
    grant: &Grant,
    arrival: &Sighting,
    departure: &Sighting,
) -> bool
    requires { AreAnswers (taken intake.now) answers }
    ensures { IsTrue result ↔ ((request : OneSighting) × (sighting_at (taken intake.now) sight ≡ Some request)
        × IsGranted (taken intake.now) grant.now arrival.now departure.now request) }
{
    let Some(request) = intake.sighting(sight) else {
        return false;
    };
    is_granted(intake, answers, grant, arrival, departure, request)
}

/// Whether such a request with the key was captured. The last one is tried first.
pub fn granted_by(
    intake: &Intake,
    listed: Leases<'_>,
    key: u64,
    grant: &Grant,
    arrival: &Sighting,
    departure: &Sighting,
) -> bool
    requires { AreLeases (taken intake.now) listed }
    ensures some { IsTrue result → HasGrant (taken intake.now) grant.now arrival.now departure.now }
    ensures all { (request : OneSighting) → IsCaptured (taken intake.now) request → IsRequestBy (taken intake.now) key request →
        IsGranted (taken intake.now) grant.now arrival.now departure.now request → IsTrue result }
{
    let first = least_request(intake.policy(), grant.lease, arrival, listed.requests.width);
    let span = span_of_key(listed.requests.places, key, first, departure.hi);
    let mut place = span.past;
    'places: while span.first < place {
        place -= 1;
        if is_granted_at(
            intake,
            listed.answers,
            listed.requests.places[place].sight,
            grant,
            arrival,
            departure,
        ) {
            return true;
        }
    }
    false
}
