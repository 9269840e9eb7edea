//! Readers of single JSON values.

ghost use Rattle.std.specs.Prelude.{IfOk};
ghost use Rattle.serde_json.specs.Data.{Data};
ghost use Rattle.serde_json.specs.View.{view};
ghost use Rattle.script_input.specs.Answers.{Gives};
ghost use Rattle.script_input.specs.Checked.{Checked};
ghost use Rattle.script_input.specs.ForProofs.{IsBelow};

use crate::refusal::{PAST_LIMIT, ScriptStop, WRONG_SHAPE, behind, refused};
use serde_json::Value;
use std::alloc::Global;

/// What reads a JSON value, and refuses those of another form.
pub trait Reader {
    type Read: Drop;

    ghost reading: { Self → Data → Checked Self.Read };

    ghost keeps: { Self → Self.Read → Type 0 };

    fn read(&self, alloc: Global, value: &Value) -> Result<Self::Read, ScriptStop>
        ensures gives { Gives result (reading self.now (view value.now)) }
        ensures keeps { IfOk result (λ x. keeps self.now x) };
}

/// An outcome, with its refusal seen from one step further up.
pub fn below<T: Drop>(
    alloc: Global,
    step: &str,
    outcome: Result<T, ScriptStop>,
) -> Result<T, ScriptStop>
    ensures { IsBelow step.now outcome result }
{
    match outcome {
        Ok(value) => Ok(value),
        Err(stop) => Err(behind(alloc, step, stop)),
    }
}

/// A boolean.
pub struct Boolean;

impl Reader for Boolean {
    type Read = bool;

    ghost use Rattle.std.specs.Prelude.{⊤};
    ghost use Rattle.script_input.specs.Values as spec;

    ghost reading = { λ _. spec.bool_at };

    ghost keeps = { λ _ _. ⊤ };

    fn read(&self, alloc: Global, value: &Value) -> Result<bool, ScriptStop> {
        match value.as_bool() {
            Some(holds) => Ok(holds),
            None => Err(refused(alloc, WRONG_SHAPE)),
        }
    }
}

/// An integer from `least` to `most`.
#[derive(Clone, Copy)]
pub struct Integer {
    pub least: u32,
    pub most: u32,
}

impl Reader for Integer {
    type Read = u32;

    ghost use Rattle.std.specs.Prelude.{◌≤◌};
    ghost use Rattle.script_input.specs.Values as spec;

    ghost reading = { λ bounds. spec.integer_within bounds.least bounds.most };

    ghost keeps = { λ bounds n. (bounds.least ≤ n) × (n ≤ bounds.most) };

    #[tactic(auto, unfolding(crate::specs::Values::integer_within))]
    fn read(&self, alloc: Global, value: &Value) -> Result<u32, ScriptStop> {
        match value.as_u64() {
            Some(n) if u64::from(self.least) <= n && n <= u64::from(self.most) => Ok(n as u32),
            Some(_) => Err(refused(alloc, PAST_LIMIT)),
            None => Err(refused(alloc, WRONG_SHAPE)),
        }
    }
}

/// The number of a frame, a document or a navigation, or of a child.
pub const OBJECT_NUMBER: Integer = Integer {
    least: 0,
    most: u32::MAX,
};
