//! A certificate by one walk over the sightings.

ghost use Rattle.std.specs.Prelude.{◌≡◌, ◌+◌, ◌≤◌, All, [], map, IfOk};
ghost use Rattle.audit_model.specs.EventCount.{event_count};
ghost use Rattle.audit_model.specs.declared.certificate.TheConstants.{MAX_EVENTS};
ghost use Rattle.audit_sightings.specs.Intake.{taken};
ghost use Rattle.audit_clients.specs.Clients.{clients_of};
ghost use Rattle.audit_finder.specs.Found.{pair_of, AllNamed, AreThere, KeysRise};
ghost use Rattle.audit_finder.specs.Departures.{LeaveOnce, IsNoted};

use crate::filling::Filled;
use crate::finding::{certificate_of, clients_in};
use audit_finding::{FoundCertificate, Windows};
use audit_keys::Credentials;
use audit_model::Addr;
use audit_sightings::Intake;
use audit_walk::{Ahead, Judge, Search};
use std::alloc::{AllocError, Global};
use std::hash::RandomState;

/// A lane for each pair, with all events of a walk except the last ones.
fn walked(
    alloc: Global,
    intake: &Intake,
    judge: &Judge<'_>,
    pairs: &[(Addr, Addr)],
    search: &mut Search,
) -> Result<Filled, AllocError>
    ensures pairs { IfOk result (λ filled. map pair_of filled.lanes.items ≡ pairs.now) }
    ensures room { IfOk result (λ filled. event_count filled.lanes.items + filled.room ≤ MAX_EVENTS) }
    ensures named { IfOk result (λ filled. AllNamed (taken intake.now) filled.lanes.items) }
    ensures noted { IfOk result (λ filled. IsNoted filled.departed.rows.items filled.lanes.items) }
{
    let mut filled = Filled::new(alloc, intake, pairs)?;
    let mut ahead = Ahead::new(alloc);
    ahead.begin(judge)?;
    search.begin(judge)?;
    let (_, sightings) = intake.counts();
    // Each stretch has at least one.
    'steps: for _ in 0..sightings {
        let Some(stretch) = ahead.next(judge)? else {
            break;
        };
        let portion = search.place(judge, stretch)?;
        filled.add_all(intake, portion.into_events())?;
    }
    Ok(filled)
}

/// The certificate of a walk from its start.
fn found_by(
    alloc: Global,
    seed: RandomState,
    intake: &Intake,
    credentials: &Credentials,
    windows: Windows,
    search: Search,
) -> Result<FoundCertificate, AllocError>
    ensures lanes { IfOk result (λ found. map pair_of found.certificate.lanes ≡ clients_of (taken intake.now)) }
    ensures events { IfOk result (λ found. AllNamed (taken intake.now) found.certificate.lanes) }
    ensures once { IfOk result (λ found. LeaveOnce found.certificate.lanes) }
    ensures order { IfOk result (λ found. All KeysRise found.certificate.lanes) }
    ensures drops { IfOk result (λ found. AreThere (taken intake.now) found.certificate.drops) }
    ensures skews { IfOk result (λ found. found.certificate.skews ≡ []) }
{
    let clients = clients_in(alloc, seed, intake)?;
    let judge = Judge::new(alloc, intake, credentials, &clients, windows);
    let pairs = clients.lanes();
    let mut search = search;
    let filled = walked(alloc, intake, &judge, pairs, &mut search)?;
    let last = search.finish(&judge)?;
    let certificate = certificate_of(alloc, intake, filled, last)?;
    Ok(FoundCertificate::new(certificate, search.seems_conforming()))
}

/// Makes a certificate like `find`, with the same lanes, but by one walk over the sightings without
/// backtracking: it takes less time, and finds an order for fewer captures.
pub fn find_once(
    alloc: Global,
    seed: RandomState,
    intake: &Intake,
    credentials: &Credentials,
    windows: Windows,
) -> Result<FoundCertificate, AllocError>
    ensures lanes { IfOk result (λ found. map pair_of found.certificate.lanes ≡ clients_of (taken intake.now)) }
    ensures events { IfOk result (λ found. AllNamed (taken intake.now) found.certificate.lanes) }
    ensures once { IfOk result (λ found. LeaveOnce found.certificate.lanes) }
    ensures order { IfOk result (λ found. All KeysRise found.certificate.lanes) }
    ensures drops { IfOk result (λ found. AreThere (taken intake.now) found.certificate.drops) }
    ensures skews { IfOk result (λ found. found.certificate.skews ≡ []) }
{
    found_by(
        alloc,
        seed,
        intake,
        credentials,
        windows,
        Search::new(alloc),
    )
}

/// Makes a certificate like `find_once`, but acts on requests as their responses leave, so that
/// leases last as long as possible.
pub fn find_late(
    alloc: Global,
    seed: RandomState,
    intake: &Intake,
    credentials: &Credentials,
) -> Result<FoundCertificate, AllocError>
    ensures lanes { IfOk result (λ found. map pair_of found.certificate.lanes ≡ clients_of (taken intake.now)) }
    ensures events { IfOk result (λ found. AllNamed (taken intake.now) found.certificate.lanes) }
    ensures once { IfOk result (λ found. LeaveOnce found.certificate.lanes) }
    ensures order { IfOk result (λ found. All KeysRise found.certificate.lanes) }
    ensures drops { IfOk result (λ found. AreThere (taken intake.now) found.certificate.drops) }
    ensures skews { IfOk result (λ found. found.certificate.skews ≡ []) }
{
    found_by(
        alloc,
        seed,
        intake,
        credentials,
        Windows::Whole,
        Search::late(alloc),
    )
}
