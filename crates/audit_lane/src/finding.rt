//! Judges one lane alone.

ghost use Rattle.std.specs.Prelude.{◌≡◌, IfOk};
ghost use Rattle.audit_lane.specs.Judged.{IsJudged};
ghost use Rattle.audit_lane.specs.Seen.{judgement_of};

use crate::ahead::Compared;
use crate::fault::LaneFault;
use crate::input::LaneInput;
use crate::state::LaneState;
use audit_model::{Breach, Listed, Tenancy};
use audit_sightings::EventsAhead;
use std::alloc::{AllocError, Global};
use std::marker::Model;
use std::sync::Arc;

/// The result of the walk of a lane.
#[derive(Debug, Drop)]
pub enum Outcome {
    /// The lane is a run of a server that has this client alone; the times in which it had a
    /// relayed address.
    Passed(Listed<Tenancy>),
    /// The first breach that the walk meets.
    Broken(Breach),
}

/// A lane's input and its outcome. Only `judge` creates one.
#[derive(Drop)]
pub struct Finding<'a> {
    input: Arc<LaneInput<'a>>,
    outcome: Outcome,
}

impl<'a> Model for Finding<'a> {
    ghost use Rattle.audit_lane.specs.Content.{Found};
    ghost use Rattle.audit_lane.specs.Judged.{IsJudged};
    ghost use Rattle.audit_lane.specs.Seen.{judgement_of};

    ghost Value = { Found };

    ghost view = { λ f. record { input = f.input.value; outcome = judgement_of f.outcome } };

    ghost invariant = { λ f. IsJudged f.input.value (judgement_of f.outcome) };
}

impl<'a> Finding<'a> {
    /// The input by which the lane was judged.
    pub fn input(&self) -> &LaneInput<'a>
        ensures { result.now ≡ self.now.input }
    {
        &*self.input
    }

    /// The outcome: the judgement of that input.
    pub fn outcome(&self) -> &Outcome
        ensures same { judgement_of result.now ≡ self.now.outcome }
        ensures judged { IsJudged self.now.input self.now.outcome }
    {
        &self.outcome
    }
}

/// The result of the walk of the lane.
fn outcome_of(alloc: Global, input: &LaneInput<'_>) -> Result<Outcome, AllocError>
    ensures { IfOk result (λ outcome. IsJudged input.now (judgement_of outcome)) }
{
    let mut lane = LaneState::new(alloc, input.number(), input.client(), input.listen());
    let events = input.events();
    let mut ahead = EventsAhead::new(Compared, events);
    'events: for place in 0..events.len() {
        ahead.advance();
        match lane.step(
            input.number(),
            input.users(),
            input.policy(),
            place as u32,
            events[place],
        ) {
            Ok(()) => {}
            Err(LaneFault::Broken(breach)) => return Ok(Outcome::Broken(breach)),
            Err(LaneFault::Memory) => return Err(AllocError),
        }
    }
    match lane.end() {
        Err(breach) => Ok(Outcome::Broken(breach)),
        Ok(()) => {
            let tenancies = lane.all_tenancies(alloc)?;
            Ok(Outcome::Passed(tenancies))
        }
    }
}

/// Judges a lane alone. It takes n log n time in its events.
pub fn judge<'a>(alloc: Global, input: Arc<LaneInput<'a>>) -> Result<Finding<'a>, AllocError>
    ensures input { IfOk result (λ f. f.input ≡ input.entry.value) }
    ensures outcome { IfOk result (λ f. IsJudged input.entry.value f.outcome) }
{
    let outcome = outcome_of(alloc, &*input)?;
    Ok(Finding { input, outcome })
}
