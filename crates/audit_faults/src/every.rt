//! All faults that captures show.

ghost use Rattle.std.specs.Prelude.{◌≡◌, ◌↔◌, ◌+◌, List, Some, IsSome, IsTrue, OnOk, IfOk};
ghost use Rattle.std.specs.List.{All};
ghost use Rattle.audit_model.specs.declared.sighting.Sighting.{Sighting as OneSighting};
ghost use Rattle.audit_model.specs.declared.certificate.Certificate.{Certificate};
ghost use Rattle.audit_keys.specs.KeyFor.{key_for};
ghost use Rattle.audit_sightings.specs.Intake.{taken, sighting_at};
ghost use Rattle.audit_server.specs.Step.{Step};
ghost use Rattle.audit_whole.specs.CaptureRun.{rules_for, IsCaptureRun};
ghost use Rattle.audit_whole.specs.Conforms.{Conforms};
ghost use Rattle.audit_faults.specs.Beginning.{HasBeginning};
ghost use Rattle.audit_faults.specs.Index.{AreArrivals, IsIndex};
ghost use Rattle.audit_faults.specs.Shown.{AreFaults, AreFaultsBefore, IsOfLease, MayPredate, IsWhen, ReportsWhen};

use crate::answers::answers_of;
use crate::arrival_keys::arrivals_of;
use crate::begun::was_begun;
use crate::fault::{Fault, Granted, ShownFault};
use crate::first_fault::first_fault;
use crate::index::{Index, extents_by_interface};
use crate::last_grant::last_grant;
use crate::laws::fault_excludes;
use crate::leased::Leases;
use crate::pairs::pairs_of;
use crate::repeat_blocks::blocks_of;
use crate::repeats::{Arrivals, repeats_of};
use crate::requests::requests_of;
use audit_keys::Credentials;
use audit_model::{Addr, Payload, Side, SightId, Sighting};
use audit_sightings::Intake;
use std::alloc::{AllocError, Global};
use std::sync::Arc;

/// Whether the fault is the lack of a lease.
fn is_of_lease(fault: Fault) -> bool
    ensures { IsTrue result ↔ IsOfLease fault }
{
    match fault {
        Fault::Unallocated => true,
        Fault::Unpermitted => true,
        Fault::Unbound => true,
        Fault::Unasked => false,
        Fault::Unfit => false,
        Fault::Unauthentic => false,
    }
}

/// Whether the captures have no beginning of an allocation of any client whose datagram may have
/// caused the departure.
fn lacks_beginning(
    intake: &Intake,
    index: &Index<'_>,
    arrivals: Arrivals<'_>,
    always: &Sighting,
    sight: SightId,
) -> bool
    requires index { IsIndex (taken intake.now) index.now }
    requires arrivals { AreArrivals (taken intake.now) arrivals }
    requires always { always.now.lo ≡ 0 }
    requires there { IsSome (sighting_at (taken intake.now) sight) }
    ensures { IsTrue result ↔ ((departure : OneSighting) → sighting_at (taken intake.now) sight ≡ Some departure → HasBeginning (taken intake.now) departure → ⊥) }
{
    let Some(departure) = intake.sighting(sight) else {
        return false;
    };
    if was_begun(
        intake,
        arrivals,
        index,
        Fault::Unallocated,
        always,
        departure,
        departure,
    ) {
        return false;
    }
    true
}

/// Whether the captures began too late for the allocation that a departure without a lease needs.
fn may_predate(
    intake: &Intake,
    index: &Index<'_>,
    arrivals: Arrivals<'_>,
    always: &Sighting,
    fault: Fault,
    sight: SightId,
) -> bool
    requires index { IsIndex (taken intake.now) index.now }
    requires arrivals { AreArrivals (taken intake.now) arrivals }
    requires always { always.now.lo ≡ 0 }
    requires there { IsSome (sighting_at (taken intake.now) sight) }
    ensures { IsTrue result ↔ MayPredate (taken intake.now) fault sight }
{
    is_of_lease(fault) && lacks_beginning(intake, index, arrivals, always, sight)
}

/// When a client whose datagram may have caused the departure was granted what it lacked.
fn when(
    intake: &Intake,
    index: &Index<'_>,
    arrivals: Arrivals<'_>,
    always: &Sighting,
    fault: Fault,
    departure: &Sighting,
) -> Granted
    requires index { IsIndex (taken intake.now) index.now }
    requires arrivals { AreArrivals (taken intake.now) arrivals }
    requires first { always.now.lo ≡ 0 }
    requires last { always.now.hi ≡ 18446744073709551615 }
    ensures { IsWhen (taken intake.now) fault departure.now result }
{
    if was_begun(intake, arrivals, index, fault, always, departure, departure) {
        return Granted::Before;
    }
    if was_begun(intake, arrivals, index, fault, always, always, departure) {
        return Granted::Later;
    }
    Granted::Never
}

/// When a client was granted the lease that the departure lacked; None if it lacked no lease.
fn granted_when(
    intake: &Intake,
    index: &Index<'_>,
    arrivals: Arrivals<'_>,
    always: &Sighting,
    fault: Fault,
    sight: SightId,
) -> Option<Granted>
    requires index { IsIndex (taken intake.now) index.now }
    requires arrivals { AreArrivals (taken intake.now) arrivals }
    requires first { always.now.lo ≡ 0 }
    requires last { always.now.hi ≡ 18446744073709551615 }
    requires there { IsSome (sighting_at (taken intake.now) sight) }
    ensures { ReportsWhen (taken intake.now) fault sight result }
{
    let Some(departure) = intake.sighting(sight) else {
        return None;
    };
    if is_of_lease(fault) {
        return Some(when(intake, index, arrivals, always, fault, departure));
    }
    None
}

/// A sighting of all moments: no lease has expired at its first, and nothing comes after its last.
fn of_all_moments(alloc: Global) -> Result<Sighting, AllocError>
    ensures first { IfOk result (λ always. always.lo ≡ 0) }
    ensures last { IfOk result (λ always. always.hi ≡ 18446744073709551615) }
{
    let arena = Arc::new(alloc, Vec::new(alloc))?;
    let nowhere = Addr { ip: 0, port: 0 };
    Ok(Sighting {
        payload: Payload::of(&arena, 0, 0)?,
        stamp: 0,
        lo: 0,
        hi: u64::MAX,
        id: SightId { iface: 0, index: 0 },
        from: nowhere,
        to: nowhere,
        side: Side::Arrives,
    })
}

/// Adds the first fault of the sighting, if it shows one.
fn add_of_sighting(
    intake: &Intake,
    index: &Index<'_>,
    arrivals: Arrivals<'_>,
    always: &Sighting,
    credentials: &Credentials,
    sight: SightId,
    faults: &mut Vec<ShownFault>,
) -> Result<(), AllocError>
    requires index { IsIndex (taken intake.now) index.now }
    requires arrivals { AreArrivals (taken intake.now) arrivals }
    requires first { always.now.lo ≡ 0 }
    requires last { always.now.hi ≡ 18446744073709551615 }
    requires so_far { AreFaultsBefore (taken intake.now) (key_for credentials.now) sight faults.old.items }
    ensures { OnOk result (AreFaultsBefore (taken intake.now) (key_for credentials.now)
        (record { iface = sight.iface; index = sight.index + 1 }) faults.new.items) }
{
    if let Some(fault) = first_fault(intake, index, credentials, sight) {
        let may_predate = may_predate(intake, index, arrivals, always, fault, sight);
        let granted = granted_when(intake, index, arrivals, always, fault, sight);
        let last = last_grant(intake, index, arrivals, always, credentials, fault, sight);
        faults.push(ShownFault {
            sight,
            fault,
            may_predate,
            granted,
            last,
        })?;
    }
    Ok(())
}

/// Adds the first faults of the interface's sightings.
fn add_of_interface(
    intake: &Intake,
    index: &Index<'_>,
    arrivals: Arrivals<'_>,
    always: &Sighting,
    credentials: &Credentials,
    iface: u32,
    faults: &mut Vec<ShownFault>,
) -> Result<(), AllocError>
    requires index { IsIndex (taken intake.now) index.now }
    requires arrivals { AreArrivals (taken intake.now) arrivals }
    requires first { always.now.lo ≡ 0 }
    requires last { always.now.hi ≡ 18446744073709551615 }
    requires so_far { AreFaultsBefore (taken intake.now) (key_for credentials.now) (record { iface = iface; index = 0 }) faults.old.items }
    ensures { OnOk result (AreFaultsBefore (taken intake.now) (key_for credentials.now)
        (record { iface = iface + 1; index = 0 }) faults.new.items) }
{
    'sightings: for sighting in intake.interface(iface) {
        add_of_sighting(
            intake,
            index,
            arrivals,
            always,
            credentials,
            sighting.id,
            faults,
        )?;
    }
    Ok(())
}

/// The first fault of each departure that shows one, in order of interface and index. For each
/// departure it reads the arrivals in reach that have a key of it, and for each lease the client's
/// requests for leases and their success responses. It takes memory for two numbers a sighting, the
/// places of these and the faults. It fails only if memory is exhausted.
pub fn shown_faults(
    alloc: Global,
    intake: &Intake,
    credentials: &Credentials,
) -> Result<Vec<ShownFault>, AllocError>
    // For each departure that shows a fault the first one, and no others.
    ensures exact { IfOk result (λ faults. AreFaults (taken intake.now) (key_for credentials.now) faults.items) }
    // With any of them no list of moves is a run of the server that explains the captures,
    ensures no_run { IfOk result (λ faults. All (λ shown. (steps : List Step) →
        IsCaptureRun (taken intake.now) (rules_for (taken intake.now) (key_for credentials.now)) steps → ⊥) faults.items) }
    // and no certificate conforms.
    ensures no_certificate { IfOk result (λ faults. All (λ shown. (certificate : Certificate) →
        Conforms (taken intake.now) (rules_for (taken intake.now) (key_for credentials.now)) certificate → ⊥) faults.items) }
{
    fault_excludes();
    let extents = extents_by_interface(alloc, intake)?;
    let answers_kept = answers_of(alloc, intake)?;
    let answers = answers_kept.by_key();
    let requests_kept = requests_of(alloc, intake, answers)?;
    let requests = requests_kept.by_key();
    let kept_arrivals = arrivals_of(alloc, intake)?;
    let by_key = kept_arrivals.by_key();
    let repeats_kept = repeats_of(alloc, intake, by_key.places)?;
    let repeats = repeats_kept.as_slice();
    let blocks_kept = blocks_of(alloc, intake, by_key.places, repeats)?;
    let blocks = blocks_kept.as_slice();
    let pairs_kept = pairs_of(alloc, intake, answers)?;
    let pairs = pairs_kept.as_slice();
    let arrivals = Arrivals {
        by_key,
        repeats,
        blocks,
        pairs,
    };
    let index = Index {
        extents: extents.as_slice(),
        leases: Some(Leases { answers, requests }),
        arrivals: Some(arrivals),
    };
    let always = of_all_moments(alloc)?;
    let mut faults = Vec::new(alloc);
    'interfaces: for iface in 0..intake.interfaces() {
        add_of_interface(
            intake,
            &index,
            arrivals,
            &always,
            credentials,
            iface,
            &mut faults,
        )?;
    }
    Ok(faults)
}
