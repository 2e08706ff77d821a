//! Checks that moves explain the captures.

ghost use Rattle.std.specs.Prelude.{◌≡◌, ◌≤◌, ℕ, length, IsTrue, IfOk, is_some, true, None};
ghost use Rattle.audit_keys.specs.KeyFor.{key_for};
ghost use Rattle.audit_model.specs.declared.sighting.SightId.{SightId as SightName};
ghost use Rattle.audit_sightings.specs.Intake.{taken, sighting_at, interface_at};
ghost use Rattle.audit_segments.specs.Alike.{is_placed};
ghost use Rattle.audit_segments.specs.Claims.{HeadlineOf};
ghost use Rattle.audit_machine.specs.Counts.{count_of};
ghost use Rattle.audit_machine.specs.Moves.{steps_of};
ghost use Rattle.audit_machine.specs.Times.{time_of};

use crate::machine::Machine;
use crate::moves::Action;
use crate::refusal::Refusal;
use audit_keys::Credentials;
use audit_model::{Listed, Policy};
use audit_sightings::Intake;
use std::alloc::{AllocError, Global};

impl Machine {
    /// Whether all sightings of an interface are placed.
    fn has_interface(&self, intake: &Intake, iface: u32) -> bool
        ensures { IsTrue result → length (interface_at (taken intake.now) iface) ≤ count_of self.now.placed iface }
    {
        intake.interface(iface).len() <= self.placed.get(iface) as usize
    }

    /// Whether all sightings are placed.
    pub(crate) fn has_all(&self, intake: &Intake) -> bool
        ensures { IsTrue result → (s : SightName) → is_some (sighting_at (taken intake.now) s) ≡ true → is_placed (count_of self.now.placed) s ≡ true }
    {
        'interfaces: for iface in 0..intake.interfaces() {
            if !self.has_interface(intake, iface) {
                return false;
            }
        }
        true
    }

    /// Whether no departure is owed.
    pub(crate) fn owes_nothing(&self) -> bool
        ensures { IsTrue result → (t : SightName) → time_of self.now.owed t ≡ None }
    {
        self.owed.is_empty()
    }
}

/// A copy of a policy.
fn copy_of(alloc: Global, policy: &Policy) -> Result<Policy, AllocError>
    ensures { IfOk result (λ copy. copy ≡ policy.now) }
{
    Ok(Policy {
        listen: Listed::from(Vec::from_slice(alloc, policy.listen.as_slice())?),
        relay: Listed::from(Vec::from_slice(alloc, policy.relay.as_slice())?),
        skew: policy.skew,
        skews: Listed::from(Vec::from_slice(alloc, policy.skews.as_slice())?),
        grace: policy.grace,
        hold: policy.hold,
    })
}

/// Whether moves are a run of one server that explains the captures: if so, the headline holds of
/// them.
pub fn explains(
    alloc: Global,
    intake: &Intake,
    credentials: &Credentials,
    actions: &[Action],
) -> Result<bool, Refusal>
    ensures { IfOk result (λ yes. IsTrue yes → HeadlineOf (taken intake.now) (key_for credentials.now) (steps_of actions.now)) }
{
    let mut machine = Machine::new(alloc, copy_of(alloc, intake.policy())?);
    if let Err(stop) = machine.apply_all(alloc, intake, credentials, actions) {
        return Err(stop.refusal);
    }
    Ok(machine.is_complete(intake))
}
