//! A watch, its begin, and what it claims.

ghost use Rattle.std.specs.Prelude.{◌≡◌, ◌≤◌, ◌<◌, ℕ, List, false, IfOk, IfErr, IsTrue};
ghost use Rattle.audit_model.specs.declared.sighting.SightId.{SightId as SightName};
ghost use Rattle.audit_rules.specs.Keys.{KeyFor};
ghost use Rattle.audit_server.specs.Step.{Step};
ghost use Rattle.audit_sightings.specs.Intake.{Taken, taken};
ghost use Rattle.audit_cuts.specs.Absolute.{absolute_cut};
ghost use Rattle.audit_cuts.specs.Rebasing.{bases_of};
ghost use Rattle.audit_segments.specs.Claims.{ConformsUpTo, HeadlineOf};
ghost use Rattle.audit_segments.specs.Cut.{empty_cut};
ghost use Rattle.audit_machine.specs.Carrying.{base_at, CanNotResume, LacksBase};
ghost use Rattle.audit_machine.specs.Judged.{IsJudgedBy};
ghost use Rattle.audit_machine.specs.Machine.{IsConsistent};
ghost use Rattle.audit_watch.specs.Watch.{watch_cut, AreAllCaptured, LeadsFrom};

use audit_cuts::{Carried, Interface};
use audit_machine::{CarryError, Machine, Upkeep};
use audit_model::Policy;
use audit_sightings::Intake;
use std::alloc::{AllocError, Global};

/// One server's state over captures that don't end. The ids of an intake's sightings count from a
/// base on each interface.
#[derive(Drop)]
pub struct Watch {
    pub(crate) machine: Machine,
    pub(crate) upkeep: Upkeep,
    /// How many sightings of each interface come before the intake's first one; 0 without a base.
    pub(crate) bases: Vec<u64>,
}

/// The bases, and 0 for each interface that has none yet.
fn with_all(alloc: Global, bases: &[u64], interfaces: u32) -> Result<Vec<u64>, AllocError>
    ensures { IfOk result (λ all. (iface : ℕ) → base_at all.items iface ≡ base_at bases.now iface) }
{
    let mut all = Vec::from_slice(alloc, bases)?;
    'interfaces: for _ in bases.len()..interfaces as usize {
        all.push(0)?;
    }
    Ok(all)
}

/// The bases of interfaces.
fn bases_from(alloc: Global, interfaces: &[Interface]) -> Result<Vec<u64>, AllocError>
    ensures { IfOk result (λ bases. bases.items ≡ bases_of interfaces.now) }
{
    let mut bases = Vec::with_capacity(alloc, interfaces.len())?;
    'interfaces: for interface in interfaces {
        bases.push(interface.base)?;
    }
    Ok(bases)
}

impl Watch {
    /// A watch of a server with an empty table, before the first capture. Allocates no memory.
    pub fn new(alloc: Global, policy: Policy) -> Watch
        ensures policy { result.machine.policy ≡ policy }
        ensures start { watch_cut result ≡ empty_cut }
        ensures claim { (all : Taken) (key_for : KeyFor) → LeadsFrom all key_for empty_cut result }
        ensures consistent { IsConsistent result.machine }
    {
        Watch {
            machine: Machine::new(alloc, policy),
            upkeep: Upkeep::new(alloc),
            bases: Vec::new(alloc),
        }
    }

    /// A watch that goes on from what was carried over a cut: after a restart, or with an intake
    /// that begins anew at the first sighting that is still needed. It takes n log n time.
    pub fn resume(alloc: Global, policy: Policy, carried: &Carried) -> Result<Watch, CarryError>
        ensures policy { IfOk result (λ watch. watch.machine.policy ≡ policy) }
        ensures cut { IfOk result (λ watch. watch_cut watch ≡ absolute_cut carried.now (λ _. false)) }
        ensures claim { IfOk result (λ watch. (all : Taken) (key_for : KeyFor) → LeadsFrom all key_for (absolute_cut carried.now (λ _. false)) watch) }
        ensures consistent { IfOk result (λ watch. IsConsistent watch.machine) }
        ensures why { IfErr result (CanNotResume policy.grace carried.now) }
    {
        Ok(Watch {
            machine: Machine::resume(alloc, policy, carried)?,
            upkeep: Upkeep::resume(alloc, carried)?,
            bases: bases_from(alloc, &carried.interfaces)?,
        })
    }

    /// What a later watch needs to go on from here. The intake is that of the last turn. It takes
    /// time and memory in proportion to what is alive.
    pub fn carried(&self, alloc: Global, intake: &Intake) -> Result<Carried, CarryError>
        ensures cut { IfOk result (λ carried. absolute_cut carried (λ _. false) ≡ watch_cut self.now) }
        ensures why { IfErr result (λ error. (bases : List ℕ) × LacksBase self.now.machine.placed bases error) }
    {
        let bases = with_all(alloc, &self.bases, intake.interfaces())?;
        self.machine.carried(alloc, &bases)
    }

    /// The last moment up to the horizon up to which all that was captured conforms. It takes
    /// linear time in the sightings that are not placed, and in the owed departures.
    pub fn conforms_up_to(&self, intake: &Intake, horizon: u64) -> u64
        ensures conforms { (all : Taken) (key_for : KeyFor) → AreAllCaptured all self.now (taken intake.now) → LeadsFrom all key_for empty_cut self.now →
            (steps : List Step) × ConformsUpTo all key_for result (watch_cut self.now) steps }
        ensures horizon { result ≤ horizon }
        ensures last { (moment : ℕ) → result < moment → moment ≤ horizon → IsJudgedBy (taken intake.now) self.now.machine moment → ⊥ }
    {
        self.machine.judged_up_to(intake, horizon)
    }

    /// Whether all that was captured is placed and no departure is owed. If so, and the captures
    /// end here, the headline holds of them.
    pub fn is_complete(&self, intake: &Intake) -> bool
        ensures { IsTrue result → (all : Taken) (key_for : KeyFor) → AreAllCaptured all self.now (taken intake.now) → LeadsFrom all key_for empty_cut self.now →
            (steps : List Step) × HeadlineOf all key_for steps }
    {
        self.machine.is_complete(intake)
    }
}
