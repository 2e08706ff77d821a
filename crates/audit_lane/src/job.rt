//! The lanes that are to be judged.

ghost use Rattle.std.specs.Prelude.{◌≡◌, ◌<◌, ◌≤◌, ◌++◌, ◌∷◌, [], IfOk, Some, length, slice_get};
ghost use Rattle.audit_model.specs.declared.certificate.TheConstants.{MAX_LANES};
ghost use Rattle.audit_lane.specs.Judged.{IsNumbered};

use crate::input::LaneInput;
use std::alloc::{AllocError, Global};
use std::marker::Model;
use std::sync::Arc;

/// The lanes that are to be judged, each at its number.
#[derive(Drop)]
pub struct Job<'a> {
    inputs: Vec<Arc<LaneInput<'a>>>,
}

impl<'a> Model for Job<'a> {
    ghost use Rattle.std.specs.Prelude.{List, map, ◌≤◌, length};
    ghost use Rattle.audit_model.specs.declared.certificate.TheConstants.{MAX_LANES};
    ghost use Rattle.audit_lane.specs.Content.{Content};
    ghost use Rattle.audit_lane.specs.Judged.{IsNumbered};

    ghost Value = { List Content };

    ghost view = { λ j. map (λ a. a.value) j.inputs.items };

    ghost invariant = { λ j. (length j.inputs.items ≤ MAX_LANES) × IsNumbered (map (λ a. a.value) j.inputs.items) };
}

impl<'a> Job<'a> {
    /// A job of no lanes. Allocates no memory.
    pub fn new(alloc: Global) -> Job<'a>
        ensures { result ≡ [] }
    {
        Job {
            inputs: Vec::new(alloc),
        }
    }

    /// Adds a lane, whose number is the count of the lanes before it.
    pub fn push(&mut self, input: Arc<LaneInput<'a>>) -> Result<(), AllocError>
        requires room { length self.old < MAX_LANES }
        requires numbered { input.value.number ≡ length self.old }
        ensures { IfOk result (λ _. self.new ≡ self.old ++ input.entry.value ∷ []) }
    {
        self.inputs.push(input)?;
        Ok(())
    }

    /// The number of lanes.
    pub fn len(&self) -> u32
        ensures len { result ≡ length self.now }
        ensures limit { result ≤ MAX_LANES }
        ensures numbered { IsNumbered self.now }
    {
        self.inputs.len() as u32
    }

    /// The input of a lane.
    pub fn input(&self, lane: u32) -> &Arc<LaneInput<'a>>
        requires { lane < length self.now }
        ensures at { slice_get self.now lane ≡ Some result.now.value }
        ensures number { result.now.value.number ≡ lane }
    {
        &self.inputs[lane as usize]
    }
}
