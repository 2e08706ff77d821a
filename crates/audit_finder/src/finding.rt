//! Certificates, made from the results of the searches.

ghost use Rattle.std.specs.Prelude.{◌≡◌, ◌+◌, ◌≤◌, All, [], map, length, IfOk};
ghost use Rattle.std.specs.List.{IsDistinct};
ghost use Rattle.audit_model.specs.EventCount.{event_count};
ghost use Rattle.audit_model.specs.declared.sighting.SightId.{SightId};
ghost use Rattle.audit_model.specs.declared.certificate.TheConstants.{MAX_LANES, MAX_EVENTS};
ghost use Rattle.audit_sightings.specs.Intake.{Taken, taken, NamesWhatIsThere};
ghost use Rattle.audit_clients.specs.Clients.{same, clients_of, with_new};
ghost use Rattle.audit_finder.specs.Found.{pair_of, AllNamed, AreThere, KeysRise};
ghost use Rattle.audit_finder.specs.Departures.{outs, out_count, LeaveOnce, IsNoted};
ghost use Rattle.audit_finding.specs.Turn.{StandInside};

use crate::filling::{Filled, is_there};
use crate::turn::Turn;
use crate::writing::written;
use audit_clients::Clients;
use audit_finding::{FoundCertificate, Windows};
use audit_keys::Credentials;
use audit_model::{Addr, CertDrop, CertLane, Certificate, Extension, Listed, Side};
use audit_search::{BestRound, Reading, best_round, best_round_by};
use audit_sightings::Intake;
use audit_walk::Portion;
use std::alloc::{AllocError, Global};
use std::hash::RandomState;
use std::thread::Threads;

/// The new lanes, with the events and the drops of a portion whose sightings exist and whose
/// moments are in the turn.
pub(crate) fn extension(
    alloc: Global,
    intake: &Intake,
    lanes: &[(Addr, Addr)],
    portion: Portion,
    turn: Turn,
) -> Result<Extension, AllocError>
    ensures lanes { IfOk result (λ found. found.lanes ≡ lanes.now) }
    ensures events { IfOk result (λ found. All (λ e. NamesWhatIsThere (taken intake.now) e.1) found.events) }
    ensures drops { IfOk result (λ found. AreThere (taken intake.now) found.drops) }
    ensures inside { IfOk result (λ found. StandInside turn.last turn.horizon found) }
{
    let (events, drops) = portion.into_parts();
    Ok(Extension {
        lanes: Listed::from(Vec::from_slice(alloc, lanes)?),
        events: Listed::from(turn.events(intake, events)),
        drops: Listed::from(turn.drops(intake, drops)),
    })
}

/// The drops of existing arrivals.
fn there(intake: &Intake, mut drops: Vec<CertDrop>) -> Vec<CertDrop>
    ensures { AreThere (taken intake.now) result.items }
{
    drops.retain(|dropped| is_there(intake, Side::Arrives, dropped.sight));
    drops
}

/// A lane with its events in the order of their keys.
fn sorted(lane: CertLane) -> CertLane
    ensures pair { pair_of result ≡ pair_of lane }
    ensures count { length result.events ≡ length lane.events }
    ensures outs { (s : SightId) → outs s result ≡ outs s lane }
    ensures order { KeysRise result }
    ensures named { (taken : Taken) → All (NamesWhatIsThere taken) lane.events → All (NamesWhatIsThere taken) result.events }
{
    let CertLane {
        events,
        client,
        listen,
    } = lane;
    let mut events = events.into_vec();
    events.sort_unstable_by_key(|event| event.key());
    CertLane {
        events: Listed::from(events),
        client,
        listen,
    }
}

/// The lanes, each with its events in the order of their keys.
fn all_sorted(alloc: Global, lanes: Vec<CertLane>) -> Result<Vec<CertLane>, AllocError>
    ensures pairs { IfOk result (λ sorted. map pair_of sorted.items ≡ map pair_of lanes.items) }
    ensures count { IfOk result (λ sorted. event_count sorted.items ≡ event_count lanes.items) }
    ensures outs { (s : SightId) → IfOk result (λ sorted. out_count s sorted.items ≡ out_count s lanes.items) }
    ensures order { IfOk result (λ sorted. All KeysRise sorted.items) }
    ensures named { (taken : Taken) → AllNamed taken lanes.items → IfOk result (λ sorted. AllNamed taken sorted.items) }
{
    let mut all = Vec::with_capacity(alloc, lanes.len())?;
    'lanes: for lane in lanes {
        all.push(sorted(lane))?;
    }
    Ok(all)
}

/// The certificate with these lanes, and with the last events and the drops whose sightings exist,
/// as long as there is room.
pub(crate) fn certificate_of(
    alloc: Global,
    intake: &Intake,
    filled: Filled,
    last: Portion,
) -> Result<Certificate, AllocError>
    requires apart { IsDistinct same (map pair_of filled.lanes.items) }
    requires few { length filled.lanes.items ≤ MAX_LANES }
    requires room { event_count filled.lanes.items + filled.room ≤ MAX_EVENTS }
    requires named { AllNamed (taken intake.now) filled.lanes.items }
    requires noted { IsNoted filled.departed.rows.items filled.lanes.items }
    ensures lanes { IfOk result (λ certificate. map pair_of certificate.lanes ≡ map pair_of filled.lanes.items) }
    ensures events { IfOk result (λ certificate. AllNamed (taken intake.now) certificate.lanes) }
    ensures once { IfOk result (λ certificate. LeaveOnce certificate.lanes) }
    ensures order { IfOk result (λ certificate. All KeysRise certificate.lanes) }
    ensures drops { IfOk result (λ certificate. AreThere (taken intake.now) certificate.drops) }
    ensures skews { IfOk result (λ certificate. certificate.skews ≡ []) }
{
    let (events, drops) = last.into_parts();
    let (lanes, room) = filled.finish(intake, events)?;
    let lanes = all_sorted(alloc, lanes)?;
    let mut drops = there(intake, drops);
    drops.truncate(room);
    Ok(Certificate {
        lanes: Listed::from(lanes),
        drops: Listed::from(drops),
        skews: Listed::new(alloc),
    })
}

/// The certificate with lanes for these pairs, and with the events and the drops of all captures
/// whose sightings exist.
fn certificate_with(
    alloc: Global,
    intake: &Intake,
    pairs: &[(Addr, Addr)],
    portion: Portion,
) -> Result<Certificate, AllocError>
    requires apart { IsDistinct same pairs.now }
    requires few { length pairs.now ≤ MAX_LANES }
    ensures lanes { IfOk result (λ certificate. map pair_of certificate.lanes ≡ pairs.now) }
    ensures events { IfOk result (λ certificate. AllNamed (taken intake.now) certificate.lanes) }
    ensures once { IfOk result (λ certificate. LeaveOnce certificate.lanes) }
    ensures order { IfOk result (λ certificate. All KeysRise certificate.lanes) }
    ensures drops { IfOk result (λ certificate. AreThere (taken intake.now) certificate.drops) }
    ensures skews { IfOk result (λ certificate. certificate.skews ≡ []) }
{
    let filled = Filled::new(alloc, intake, pairs)?;
    certificate_of(alloc, intake, filled, portion)
}

/// One part in how many of the usual work the rounds do by these windows: five parts of windows are
/// tried, so each is searched less.
fn share_of(windows: Windows) -> u64 {
    if windows == Windows::Whole { 1 } else { 4 }
}

/// The certificate of the best round, with lanes for these pairs.
fn found_in_rounds(
    alloc: Global,
    intake: &Intake,
    pairs: &[(Addr, Addr)],
    reading: &Reading<'_>,
    best: &BestRound,
) -> Result<FoundCertificate, AllocError>
    requires apart { IsDistinct same pairs.now }
    requires few { length pairs.now ≤ MAX_LANES }
    ensures lanes { IfOk result (λ found. map pair_of found.certificate.lanes ≡ pairs.now) }
    ensures events { IfOk result (λ found. AllNamed (taken intake.now) found.certificate.lanes) }
    ensures once { IfOk result (λ found. LeaveOnce found.certificate.lanes) }
    ensures order { IfOk result (λ found. All KeysRise found.certificate.lanes) }
    ensures drops { IfOk result (λ found. AreThere (taken intake.now) found.certificate.drops) }
    ensures skews { IfOk result (λ found. found.certificate.skews ≡ []) }
{
    let portion = written(alloc, reading, best.round())?;
    let certificate = certificate_with(alloc, intake, pairs, portion)?;
    Ok(FoundCertificate::new(certificate, best.is_whole()))
}

/// The clients of all captures, in a table that hashes with the seed.
pub(crate) fn clients_in(
    alloc: Global,
    seed: RandomState,
    intake: &Intake,
) -> Result<Clients, AllocError>
    ensures { IfOk result (λ clients. clients.pairs ≡ with_new [] (taken intake.now) []) }
{
    let mut clients = Clients::new(alloc, seed);
    clients.take_in(alloc, intake)?;
    Ok(clients)
}

/// Makes a certificate: an order in which the server kept to its rules, if it finds one; else an
/// order that shows where it did not.
///
/// Its lanes are the clients in the order of interface and index of their first arrivals, at most
/// 65,536 of them. It takes n log n in the sightings, with a seed that their senders didn't know.
pub fn find(
    alloc: Global,
    seed: RandomState,
    intake: &Intake,
    credentials: &Credentials,
    windows: Windows,
) -> Result<FoundCertificate, AllocError>
    ensures lanes { IfOk result (λ found. map pair_of found.certificate.lanes ≡ clients_of (taken intake.now)) }
    ensures events { IfOk result (λ found. AllNamed (taken intake.now) found.certificate.lanes) }
    ensures once { IfOk result (λ found. LeaveOnce found.certificate.lanes) }
    ensures order { IfOk result (λ found. All KeysRise found.certificate.lanes) }
    ensures drops { IfOk result (λ found. AreThere (taken intake.now) found.certificate.drops) }
    ensures skews { IfOk result (λ found. found.certificate.skews ≡ []) }
{
    let clients = clients_in(alloc, seed, intake)?;
    let lanes = clients.lanes();
    let reading = Reading::new(alloc, intake, credentials, lanes, windows)?;
    let best = best_round(&reading, share_of(windows))?;
    found_in_rounds(alloc, intake, lanes, &reading, &best)
}

/// Makes the same certificate as `find`, with at most this number of threads: each searches
/// different lanes.
pub fn find_parallel<R: Threads + Sync>(
    rt: &R,
    alloc: Global,
    seed: RandomState,
    intake: &Intake,
    credentials: &Credentials,
    windows: Windows,
    workers: u32,
) -> Result<FoundCertificate, AllocError>
    ensures lanes { IfOk result (λ found. map pair_of found.certificate.lanes ≡ clients_of (taken intake.now)) }
    ensures events { IfOk result (λ found. AllNamed (taken intake.now) found.certificate.lanes) }
    ensures once { IfOk result (λ found. LeaveOnce found.certificate.lanes) }
    ensures order { IfOk result (λ found. All KeysRise found.certificate.lanes) }
    ensures drops { IfOk result (λ found. AreThere (taken intake.now) found.certificate.drops) }
    ensures skews { IfOk result (λ found. found.certificate.skews ≡ []) }
{
    let clients = clients_in(alloc, seed, intake)?;
    let lanes = clients.lanes();
    let reading = Reading::new(alloc, intake, credentials, lanes, windows)?;
    let best = best_round_by(rt, workers, &reading, share_of(windows))?;
    found_in_rounds(alloc, intake, lanes, &reading, &best)
}
