//! A turn of a watch: the moves up to a horizon.

ghost use Rattle.std.specs.Prelude.{◌≡◌};
ghost use Rattle.audit_keys.specs.KeyFor.{key_for};
ghost use Rattle.audit_sightings.specs.Intake.{Taken, taken};
ghost use Rattle.audit_segments.specs.Cut.{Cut};
ghost use Rattle.audit_machine.specs.Machine.{IsConsistent, IsFatal};
ghost use Rattle.audit_rules.specs.Keys.{KeyFor};
ghost use Rattle.audit_watch.specs.Watch.{AreCaptured, LeadsFrom, IsUsable, IfUsable, Follows};

use crate::advance_error::AdvanceError;
use crate::order::moves_of;
use crate::watch::Watch;
use audit_keys::Credentials;
use audit_machine::{Action, Machine, Refusal, Stop, Upkeep};
use audit_model::{Addr, Extension};
use audit_sightings::Intake;
use std::alloc::{AllocError, Global};

/// The error of a move that was refused.
fn error_of(actions: &[Action], stop: Stop) -> AdvanceError
    ensures { IsUsable result → IsFatal stop.refusal → ⊥ }
{
    match (stop.refusal, actions.get(stop.place)) {
        (Refusal::Memory | Refusal::TableLost, _) | (_, None) => AdvanceError::Memory,
        (refusal, Some(action)) => AdvanceError::Refused {
            action: *action,
            refusal,
        },
    }
}

/// Has the machine judge moves.
fn apply(
    machine: &mut Machine,
    alloc: Global,
    intake: &Intake,
    credentials: &Credentials,
    actions: &[Action],
) -> Result<(), AdvanceError>
    requires { IsConsistent machine.old }
    ensures { IfUsable result (Follows (taken intake.now) (key_for credentials.now) machine.old machine.new) }
{
    match machine.apply_all(alloc, intake, credentials, actions) {
        Ok(()) => Ok(()),
        Err(stop) => Err(error_of(actions, stop)),
    }
}

/// Notes the moves that the machine made, and has it forget what no later move depends on.
fn forget(machine: &mut Machine, upkeep: &mut Upkeep, actions: &[Action]) -> Result<(), AllocError>
    requires { IsConsistent machine.old }
    ensures { (of : Taken) (keys : KeyFor) → Follows of keys machine.old machine.new }
{
    'actions: for action in actions {
        upkeep.note(*action)?;
    }
    machine.forget(upkeep)
}

/// Has the machine judge moves, and forget what no later move depends on.
fn advanced(
    machine: &mut Machine,
    upkeep: &mut Upkeep,
    alloc: Global,
    intake: &Intake,
    credentials: &Credentials,
    actions: &[Action],
) -> Result<(), AdvanceError>
    requires { IsConsistent machine.old }
    ensures { IfUsable result (Follows (taken intake.now) (key_for credentials.now) machine.old machine.new) }
{
    apply(machine, alloc, intake, credentials, actions)?;
    forget(machine, upkeep, actions)?;
    Ok(())
}

impl Watch {
    /// Judges the moves of a turn. The intake has the sightings from the bases on, the extension is
    /// the finder's up to a horizon, and the lanes are all that the finder has.
    ///
    /// If it succeeds, or if a move is refused, the watch still claims what it claimed, with the
    /// moves that were made. It takes n log n time in the extension and what is alive.
    pub fn advance(
        &mut self,
        alloc: Global,
        intake: &Intake,
        credentials: &Credentials,
        lanes: &[(Addr, Addr)],
        extension: &Extension,
    ) -> Result<(), AdvanceError>
        requires { IsConsistent self.old.machine }
        ensures claim { (all : Taken) (first : Cut) → AreCaptured all self.old (taken intake.now) → LeadsFrom all (key_for credentials.now) first self.old →
            IfUsable result (LeadsFrom all (key_for credentials.now) first self.new) }
        ensures consistent { IfUsable result (IsConsistent self.new.machine) }
        ensures policy { IfUsable result (self.new.machine.policy ≡ self.old.machine.policy) }
        ensures bases { self.new.bases ≡ self.old.bases }
    {
        let actions = moves_of(alloc, lanes, extension)?;
        let done = advanced(
            &mut self.machine,
            &mut self.upkeep,
            alloc,
            intake,
            credentials,
            &actions,
        );
        if !self.machine.has_placed(intake) {
            return Err(AdvanceError::Behind);
        }
        done
    }
}
