//! Walks a lane of an input, event by event.

ghost use Rattle.std.specs.Prelude.{◌≡◌, ◌<◌, IfErr, IfSome, MatchResult, None, OnOk, Some, length, slice_get};
ghost use Rattle.audit_rules.specs.Effect.{standing};
ghost use Rattle.audit_lane.specs.After.{after};
ghost use Rattle.audit_lane.specs.Faults.{IsRight};
ghost use Rattle.audit_lane.specs.Judged.{at_start, terms_of};
ghost use Rattle.audit_lane.specs.Seen.{IsShown, SameKept, kept_of};
ghost use Rattle.audit_lane.specs.Walk.{EndsWith, Shows};

use crate::fault::LaneFault;
use crate::input::LaneInput;
use crate::state::LaneState;
use audit_model::{Breach, Tenancy};
use audit_rules::LaneTable;
use std::alloc::Global;

/// A lane of an input, as far as it is walked.
#[derive(Drop)]
pub struct Lane<'a> {
    input: &'a LaneInput<'a>,
    state: LaneState,
}

impl<'a> Lane<'a> {
    /// The lane before its first event. Allocates no memory.
    pub fn new(alloc: Global, input: &'a LaneInput<'a>) -> Lane<'a>
        ensures input { result.input.now ≡ input.now }
        ensures start { SameKept (kept_of result.state) (at_start input.now) }
    {
        Lane {
            input,
            state: LaneState::new(alloc, input.number(), input.client(), input.listen()),
        }
    }

    /// Applies the event at a place, in turn from 0, or returns the breach; after a refusal the
    /// lane is not walked on.
    pub fn step(&mut self, place: u32) -> Result<(), LaneFault>
        requires { place < length self.old.input.now.events }
        ensures input { self.new.input.now ≡ self.old.input.now }
        ensures right { OnOk result (IfSome (slice_get self.old.input.now.events place) (IsRight (terms_of self.old.input.now) (kept_of self.old.state))) }
        ensures after { OnOk result (IfSome (slice_get self.old.input.now.events place) (λ event. SameKept (kept_of self.new.state) (after (terms_of self.old.input.now) place (kept_of self.old.state) event))) }
        ensures shows { IfErr result (λ fault. IsShown fault (λ breach. IfSome (slice_get self.old.input.now.events place) (λ event. Shows (terms_of self.old.input.now) place (kept_of self.old.state) event breach))) }
    {
        let input = self.input;
        let events = input.events();
        self.state.step(
            input.number(),
            input.users(),
            input.policy(),
            place,
            events[place as usize],
        )
    }

    /// Checks that the lane may end here: the first act whose departure has not left is a breach.
    /// Allocates no memory.
    pub fn end(&self) -> Result<(), Breach>
        ensures { MatchResult result (λ _. EndsWith (kept_of self.now.state) None) (λ breach. EndsWith (kept_of self.now.state) (Some breach)) }
    {
        self.state.end()
    }

    /// The server's state for the client after the events so far. Allocates no memory.
    pub fn table(&self) -> &LaneTable
        ensures { standing result.now ≡ (kept_of self.now.state).standing }
    {
        self.state.table()
    }

    /// The tenancies that acts of the lane ended, in order of birth. Allocates no memory.
    pub fn tenancies(&self) -> &[Tenancy]
        ensures { result.now ≡ (kept_of self.now.state).ended }
    {
        self.state.tenancies()
    }

    /// The current tenancy after the events so far, born after those that ended. Allocates no
    /// memory.
    pub fn running(&self) -> Option<Tenancy>
        ensures { result ≡ (kept_of self.now.state).standing.tenancy }
    {
        self.state.running()
    }
}
