//! The actions of documents, by their word `do`. A function reads one row of the table.

ghost use Rattle.std.specs.Prelude.{◌≡◌, IfOk, ℕ};
ghost use Rattle.serde_json.specs.View.{view};
ghost use Rattle.script_model.specs.ActionLimits.{IsAction, IsActionAmong};
ghost use Rattle.script_input.specs.Answers.{Gives};
ghost use Rattle.script_input.specs.Actions as spec;

use crate::frame::{one_source, source_at};
use crate::object::{object_at, optional, required, word_at};
use crate::raw_message::Forged;
use crate::refusal::{ScriptStop, WRONG_SHAPE, behind, refused};
use crate::text::{NameOfService, ShortText, UrlInput};
use crate::urls::PostTarget;
use crate::value::{Boolean, OBJECT_NUMBER};
use crate::word::{FrameWord, RequestMode};
use script_model::Action;
use serde_json::Value;
use std::alloc::Global;

#[tactic(auto, unfolding(crate::specs::Actions::frame_action, crate::specs::Objects::object_at))]
fn frame_action(alloc: Global, count: u32, value: &Value) -> Result<Action, ScriptStop>
    ensures gives { Gives result (spec.frame_action count (view value.now)) }
    ensures keeps { IfOk result IsAction }
    ensures among { IfOk result (IsActionAmong count) }
{
    object_at(alloc, &[], &["do", "src", "srcdoc", "sandbox"], value)?;
    one_source(alloc, value)?;
    let src = source_at(alloc, count, value)?;
    let sandbox = optional(alloc, "sandbox", &Boolean, value)?;
    Ok(Action::Frame {
        src,
        sandbox: sandbox.unwrap_or(false),
    })
}

#[tactic(auto, unfolding(crate::specs::Actions::remove_action))]
fn remove_action(alloc: Global, value: &Value) -> Result<Action, ScriptStop>
    ensures gives { Gives result (spec.remove_action (view value.now)) }
    ensures keeps { IfOk result IsAction }
    ensures among { (count : ℕ) → IfOk result (IsActionAmong count) }
{
    object_at(alloc, &["child"], &["do", "child"], value)?;
    let child = required(alloc, "child", &OBJECT_NUMBER, value)?;
    Ok(Action::Remove { child })
}

#[tactic(auto, unfolding(crate::specs::Actions::navigate_action))]
fn navigate_action(alloc: Global, value: &Value) -> Result<Action, ScriptStop>
    ensures gives { Gives result (spec.navigate_action (view value.now)) }
    ensures keeps { IfOk result IsAction }
    ensures among { (count : ℕ) → IfOk result (IsActionAmong count) }
{
    object_at(alloc, &["frame", "url"], &["do", "frame", "url"], value)?;
    let frame = required(alloc, "frame", &FrameWord, value)?;
    let url = required(alloc, "url", &UrlInput, value)?;
    Ok(Action::Navigate { frame, url })
}

#[tactic(auto, unfolding(crate::specs::Actions::page_action))]
fn page_action(alloc: Global, value: &Value) -> Result<Action, ScriptStop>
    ensures gives { Gives result (spec.page_action (view value.now)) }
    ensures keeps { IfOk result IsAction }
    ensures among { (count : ℕ) → IfOk result (IsActionAmong count) }
{
    object_at(alloc, &["url"], &["do", "url"], value)?;
    let url = required(alloc, "url", &UrlInput, value)?;
    Ok(Action::Page { url })
}

#[tactic(auto, unfolding(crate::specs::Actions::fetch_action))]
fn fetch_action(alloc: Global, value: &Value) -> Result<Action, ScriptStop>
    ensures gives { Gives result (spec.fetch_action (view value.now)) }
    ensures keeps { IfOk result IsAction }
    ensures among { (count : ℕ) → IfOk result (IsActionAmong count) }
{
    object_at(alloc, &["url", "mode"], &["do", "url", "mode"], value)?;
    let url = required(alloc, "url", &UrlInput, value)?;
    let mode = required(alloc, "mode", &RequestMode, value)?;
    Ok(Action::Fetch { url, mode })
}

#[tactic(auto, unfolding(crate::specs::Actions::post_action))]
fn post_action(alloc: Global, value: &Value) -> Result<Action, ScriptStop>
    ensures gives { Gives result (spec.post_action (view value.now)) }
    ensures keeps { IfOk result IsAction }
    ensures among { (count : ℕ) → IfOk result (IsActionAmong count) }
{
    object_at(
        alloc,
        &["frame", "target", "text"],
        &["do", "frame", "target", "text"],
        value,
    )?;
    let frame = required(alloc, "frame", &FrameWord, value)?;
    let target = required(alloc, "target", &PostTarget, value)?;
    let text = required(alloc, "text", &ShortText, value)?;
    Ok(Action::Post {
        frame,
        target,
        text,
    })
}

#[tactic(auto, unfolding(crate::specs::Actions::ask_action))]
fn ask_action(alloc: Global, value: &Value) -> Result<Action, ScriptStop>
    ensures gives { Gives result (spec.ask_action (view value.now)) }
    ensures keeps { IfOk result IsAction }
    ensures among { (count : ℕ) → IfOk result (IsActionAmong count) }
{
    object_at(
        alloc,
        &["service", "request"],
        &["do", "service", "request"],
        value,
    )?;
    let service = required(alloc, "service", &NameOfService, value)?;
    let request = required(alloc, "request", &ShortText, value)?;
    Ok(Action::Ask { service, request })
}

#[tactic(auto, unfolding(crate::specs::Actions::raw_action))]
fn raw_action(alloc: Global, count: u32, value: &Value) -> Result<Action, ScriptStop>
    ensures gives { Gives result (spec.raw_action count (view value.now)) }
    ensures keeps { IfOk result IsAction }
    ensures among { IfOk result (IsActionAmong count) }
{
    object_at(alloc, &["message"], &["do", "message"], value)?;
    let message = required(alloc, "message", &Forged { count }, value)?;
    Ok(Action::Raw(message))
}

/// An action without keys of its own.
#[tactic(auto, unfolding(crate::specs::Actions::plain_action))]
fn plain_action(alloc: Global, action: Action, value: &Value) -> Result<Action, ScriptStop>
    ensures gives { Gives result (spec.plain_action action (view value.now)) }
    ensures same { IfOk result (λ read. read ≡ action) }
{
    object_at(alloc, &[], &["do"], value)?;
    Ok(action)
}

#[tactic(auto, unfolding(crate::specs::Actions::action_by))]
fn action_by(alloc: Global, word: &str, count: u32, value: &Value) -> Result<Action, ScriptStop>
    ensures gives { Gives result (spec.action_by word.now count (view value.now)) }
    ensures keeps { IfOk result IsAction }
    ensures among { IfOk result (IsActionAmong count) }
{
    match word {
        "frame" => frame_action(alloc, count, value),
        "remove" => remove_action(alloc, value),
        "navigate" => navigate_action(alloc, value),
        "page" => page_action(alloc, value),
        "fetch" => fetch_action(alloc, value),
        "post" => post_action(alloc, value),
        "ask" => ask_action(alloc, value),
        "wait" => plain_action(alloc, Action::Wait, value),
        "recv" => plain_action(alloc, Action::Recv, value),
        "crash" => plain_action(alloc, Action::Crash, value),
        "raw" => raw_action(alloc, count, value),
        _ => Err(behind(alloc, "do", refused(alloc, WRONG_SHAPE))),
    }
}

/// An action, in a script of so many resources.
#[tactic(auto, unfolding(crate::specs::Actions::action_at))]
pub fn action_at(alloc: Global, count: u32, value: &Value) -> Result<Action, ScriptStop>
    ensures gives { Gives result (spec.action_at count (view value.now)) }
    ensures keeps { IfOk result IsAction }
    ensures among { IfOk result (IsActionAmong count) }
{
    if !value.is_object() {
        return Err(refused(alloc, WRONG_SHAPE));
    }
    let word = word_at(alloc, "do", value)?;
    action_by(alloc, word, count, value)
}
