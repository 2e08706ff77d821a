//! Finds a departure among some that shows a fault, in bounded time.

ghost use Rattle.std.specs.Prelude.{List, Contains, IfOk, IfSome};
ghost use Rattle.audit_model.specs.declared.certificate.Certificate.{Certificate};
ghost use Rattle.audit_sightings.specs.Intake.{taken};
ghost use Rattle.audit_keys.specs.KeyFor.{key_for};
ghost use Rattle.audit_server.specs.Step.{Step};
ghost use Rattle.audit_whole.specs.CaptureRun.{rules_for, IsCaptureRun};
ghost use Rattle.audit_whole.specs.Conforms.{Conforms};
ghost use Rattle.audit_faults.specs.declared.fault.Fault.{Fault as FaultKind};
ghost use Rattle.audit_faults.specs.Explains.{IsFault};
ghost use Rattle.audit_faults.specs.Index.{IsIndex};

use crate::answers::answers_of;
use crate::explains::explains;
use crate::fault::Fault;
use crate::first_fault::first_fault;
use crate::index::{Index, extents_by_interface, span_in};
use crate::keyed::Keyed;
use crate::laws::fault_excludes;
use crate::leased::Leases;
use crate::requests::requests_of;
use audit_keys::Credentials;
use audit_model::{SightId, Sighting};
use audit_sightings::Intake;
use std::alloc::{AllocError, Global};

/// The search for a departure's fault may take up to this number of steps for each sighting, plus a
/// constant.
const STEPS_A_SIGHTING: u64 = 16;

const OTHER_STEPS: u64 = 4_000_000;

/// How often the sightings in reach of a departure are read: once for each fault, and once before.
const TIMES: u64 = 6;

/// The most leases that a departure needs.
const LEASES: u64 = 3;

/// The greatest number of places of one key. The places of each key are contiguous.
fn most_places(keyed: &[Keyed]) -> u64 {
    let mut most = 0u64;
    let mut count = 0u64;
    let mut last = None;
    for one in keyed {
        count = if last == Some(one.key) {
            count.saturating_add(1)
        } else {
            1
        };
        last = Some(one.key);
        most = most.max(count);
    }
    most
}

/// The most steps of the search for a departure's fault, if each key has up to `most` places.
fn steps_for(
    intake: &Intake,
    index: &Index<'_>,
    credentials: &Credentials,
    most: u64,
    departure: &Sighting,
) -> u64
    requires { IsIndex (taken intake.now) index.now }
{
    let mut in_reach = 0u64;
    let mut arrivals = 0u64;
    'interfaces: for iface in 0..intake.interfaces() {
        let span = span_in(intake, index, iface, departure);
        let row = intake.interface(iface);
        'places: for arrival in row.get(span.first..span.past).unwrap_or(&[]) {
            in_reach = in_reach.saturating_add(1);
            if explains(
                intake,
                index,
                credentials,
                Fault::Unasked,
                arrival,
                departure,
            ) {
                arrivals = arrivals.saturating_add(1);
            }
        }
    }
    let each = most.saturating_mul(most).saturating_mul(LEASES);
    in_reach
        .saturating_add(arrivals.saturating_mul(each))
        .saturating_mul(TIMES)
}

/// The first fault of the sighting, if it shows one that is found in bounded time.
fn soon_known(
    intake: &Intake,
    index: &Index<'_>,
    credentials: &Credentials,
    most: u64,
    sight: SightId,
) -> Option<Fault>
    requires { IsIndex (taken intake.now) index.now }
    ensures { IfSome result (λ fault. IsFault (taken intake.now) (key_for credentials.now) fault sight) }
{
    let departure = intake.sighting(sight)?;
    let (_, sightings) = intake.counts();
    let most_steps = u64::from(sightings)
        .saturating_mul(STEPS_A_SIGHTING)
        .saturating_add(OTHER_STEPS);
    if steps_for(intake, index, credentials, most, departure) > most_steps {
        return None;
    }
    first_fault(intake, index, credentials, sight)
}

/// The first of these departures that shows a fault. It skips those whose search would take long.
/// It takes n log n time in the sightings, plus linear time for each departure, and memory for two
/// numbers a sighting and for the places of requests for leases and their success responses. It
/// fails only if memory is exhausted.
pub fn fault_among(
    alloc: Global,
    intake: &Intake,
    credentials: &Credentials,
    sights: &[SightId],
) -> Result<Option<SightId>, AllocError>
    // No captured datagram explains it.
    ensures shown { IfOk result (λ found. IfSome found (λ sight. Contains sights.now sight
        × ((fault : FaultKind) × IsFault (taken intake.now) (key_for credentials.now) fault sight))) }
    // So no list of moves is a run of the server that explains the captures,
    ensures no_run { IfOk result (λ found. IfSome found (λ sight. (steps : List Step) →
        IsCaptureRun (taken intake.now) (rules_for (taken intake.now) (key_for credentials.now)) steps → ⊥)) }
    // and no certificate conforms.
    ensures no_certificate { IfOk result (λ found. IfSome found (λ sight. (certificate : Certificate) →
        Conforms (taken intake.now) (rules_for (taken intake.now) (key_for credentials.now)) certificate → ⊥)) }
{
    fault_excludes();
    let extents = extents_by_interface(alloc, intake)?;
    let answers_kept = answers_of(alloc, intake)?;
    let answers = answers_kept.by_key();
    let requests_kept = requests_of(alloc, intake, answers)?;
    let requests = requests_kept.by_key();
    let index = Index {
        extents: extents.as_slice(),
        leases: Some(Leases { answers, requests }),
        arrivals: None,
    };
    let most = most_places(answers.places).max(most_places(requests.places));
    'departures: for sight in sights {
        if soon_known(intake, &index, credentials, most, *sight).is_some() {
            return Ok(Some(*sight));
        }
    }
    Ok(None)
}
