//! Where a frame's first document comes from.

ghost use Rattle.std.specs.Prelude.{◌≡◌, IfOk};
ghost use Rattle.serde_json.specs.View.{view};
ghost use Rattle.script_model.specs.ActionLimits.{IsSource, IsSourceAmong};
ghost use Rattle.script_input.specs.Answers.{Gives};
ghost use Rattle.script_input.specs.Frames as spec;

use crate::object::required;
use crate::refusal::{PAST_LIMIT, ScriptStop, WRONG_SHAPE, refused};
use crate::text::UrlInput;
use crate::value::Reader;
use script_model::Src;
use serde_json::Value;
use std::alloc::Global;

/// The index of a resource, of which there are so many.
#[derive(Clone, Copy)]
struct IndexBelow {
    count: u32,
}

impl Reader for IndexBelow {
    type Read = u32;

    ghost use Rattle.std.specs.Prelude.{◌<◌};
    ghost use Rattle.script_input.specs.Frames as spec;

    ghost reading = { λ limit. spec.index_below limit.count };

    ghost keeps = { λ limit index. index < limit.count };

    #[tactic(auto, unfolding(crate::specs::Frames::index_below))]
    fn read(&self, alloc: Global, value: &Value) -> Result<u32, ScriptStop> {
        match value.as_u64() {
            Some(index) if index < u64::from(self.count) => Ok(index as u32),
            Some(_) => Err(refused(alloc, PAST_LIMIT)),
            None => Err(refused(alloc, WRONG_SHAPE)),
        }
    }
}

/// Exactly one of `src` and `srcdoc` is there.
#[tactic(auto, unfolding(crate::specs::Frames::one_source))]
pub fn one_source(alloc: Global, value: &Value) -> Result<(), ScriptStop>
    ensures { Gives result (spec.one_source (view value.now)) }
{
    if value.get("src").is_some() == value.get("srcdoc").is_some() {
        return Err(refused(alloc, WRONG_SHAPE));
    }
    Ok(())
}

/// What the one of `src` and `srcdoc` says that is there.
#[tactic(auto, unfolding(crate::specs::Frames::source_at))]
pub fn source_at(alloc: Global, count: u32, value: &Value) -> Result<Src, ScriptStop>
    ensures gives { Gives result (spec.source_at count (view value.now)) }
    ensures keeps { IfOk result IsSource }
    ensures among { IfOk result (IsSourceAmong count) }
{
    if value.get("src").is_some() {
        Ok(Src::Url(required(alloc, "src", &UrlInput, value)?))
    } else {
        let index = required(alloc, "srcdoc", &IndexBelow { count }, value)?;
        Ok(Src::Doc(index))
    }
}
