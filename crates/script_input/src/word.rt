//! Words: modes, and frames as a document names them.

ghost use Rattle.std.specs.Prelude.{◌≡◌};
ghost use Rattle.script_input.specs.Answers.{Gives};
ghost use Rattle.script_input.specs.Words as spec;

use crate::refusal::{ScriptStop, WRONG_SHAPE, refused};
use crate::text::string_at;
use crate::value::Reader;
use decimal_text::decimal_number;
use script_model::{FrameRef, Mode};
use serde_json::Value;
use std::alloc::Global;

#[tactic(auto, unfolding(crate::specs::Words::mode_of))]
fn mode_of(alloc: Global, word: &str) -> Result<Mode, ScriptStop>
    ensures { Gives result (spec.mode_of word.now) }
{
    match word {
        "cors" => Ok(Mode::Cors),
        "no-cors" => Ok(Mode::NoCors),
        _ => Err(refused(alloc, WRONG_SHAPE)),
    }
}

/// The mode of a request.
pub struct RequestMode;

impl Reader for RequestMode {
    type Read = Mode;

    ghost use Rattle.std.specs.Prelude.{⊤};
    ghost use Rattle.script_input.specs.Words as spec;

    ghost reading = { λ _. spec.mode_at };

    ghost keeps = { λ _ _. ⊤ };

    fn read(&self, alloc: Global, value: &Value) -> Result<Mode, ScriptStop> {
        let word = string_at(alloc, value)?;
        mode_of(alloc, word)
    }
}

#[tactic(auto, unfolding(crate::specs::Words::child_of))]
fn child_of(word: &str) -> Option<FrameRef>
    ensures { result ≡ spec.child_of word.now }
{
    match word.strip_prefix("child ") {
        Some(number) => decimal_number(number.as_bytes()).map(FrameRef::Child),
        None => None,
    }
}

#[tactic(auto, unfolding(crate::specs::Words::frame_ref_of))]
fn frame_ref_of(word: &str) -> Option<FrameRef>
    ensures { result ≡ spec.frame_ref_of word.now }
{
    match word {
        "self" => Some(FrameRef::Own),
        "parent" => Some(FrameRef::Parent),
        "top" => Some(FrameRef::Top),
        "opener" => Some(FrameRef::Opener),
        word => child_of(word),
    }
}

/// A frame as a document names it.
pub struct FrameWord;

impl Reader for FrameWord {
    type Read = FrameRef;

    ghost use Rattle.std.specs.Prelude.{⊤};
    ghost use Rattle.script_input.specs.Words as spec;

    ghost reading = { λ _. spec.frame_ref_at };

    ghost keeps = { λ _ _. ⊤ };

    #[tactic(auto, unfolding(crate::specs::Words::frame_ref_at))]
    fn read(&self, alloc: Global, value: &Value) -> Result<FrameRef, ScriptStop> {
        let word = string_at(alloc, value)?;
        match frame_ref_of(word) {
            Some(frame) => Ok(frame),
            None => Err(refused(alloc, WRONG_SHAPE)),
        }
    }
}
