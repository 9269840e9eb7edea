//! The script that bytes are.

ghost use Rattle.std.specs.Prelude.{◌≡◌, ◌≤◌, IfOk};
ghost use Rattle.public_suffix.specs.Reading.{reading};
ghost use Rattle.serde_json.specs.Read.{read};
ghost use Rattle.serde_json.specs.View.{view};
ghost use Rattle.script_input.specs.Answers.{Gives, GivesBy};
ghost use Rattle.script_input.specs.ScriptReading as spec;

use crate::list::{Each, list_at};
use crate::object::{object_at, optional, required};
use crate::refusal::{NOT_JSON, Refusal, ScriptStop, refused};
use crate::resource::resources_in;
use crate::text::text_within;
use crate::urls::{TupleUrl, WebUrl};
use crate::value::{Boolean, Integer, Reader, below};
use script_model::limits::{
    MAX_ISOLATED_ORIGINS, MAX_SOFT_LIMIT, MAX_START_PAGES, MAX_SUFFIX_TEXT,
};
use script_model::{PageUrls, Policy, Rules, RulesRefusal, Script, SiteRules, TupleOrigin};
use serde_json::Value;
use std::alloc::Global;

/// The text of suffix rules, empty where it is left out.
#[tactic(auto, unfolding(crate::specs::ScriptReading::suffixes_in, crate::specs::Objects::optional), using(crate::proofs::BelowLemmas::below_gives))]
fn suffixes_in(alloc: Global, value: &Value) -> Result<&str, ScriptStop>
    ensures { GivesBy (λ text. text.now) result (spec.suffixes_in (view value.now)) }
{
    match value.get("suffixes") {
        Some(found) => below(
            alloc,
            "suffixes",
            text_within(alloc, 0, MAX_SUFFIX_TEXT, found),
        ),
        None => Ok(""),
    }
}

fn rules_of(alloc: Global, text: &str) -> Result<Rules, ScriptStop>
    ensures { Gives result (spec.rules_of (reading text.now)) }
{
    match Rules::read(alloc, text.as_bytes()) {
        Ok(rules) => Ok(rules),
        Err(RulesRefusal::BadRule(line)) => Err(ScriptStop::Refused(Refusal::of_rule(alloc, line))),
        Err(RulesRefusal::NoMemory) => Err(ScriptStop::NoMemory),
    }
}

#[tactic(auto, unfolding(crate::specs::ScriptReading::rules_in))]
fn rules_in(alloc: Global, value: &Value) -> Result<Rules, ScriptStop>
    ensures { Gives result (spec.rules_in (view value.now)) }
{
    let text = suffixes_in(alloc, value)?;
    rules_of(alloc, text)
}

/// From how many processes on they are shared, 64 where it is left out.
#[tactic(auto, unfolding(crate::specs::ScriptReading::soft_limit_in))]
fn soft_limit_in(alloc: Global, value: &Value) -> Result<u32, ScriptStop>
    ensures gives { Gives result (spec.soft_limit_in (view value.now)) }
    ensures low { IfOk result (λ limit. limit ≤ 64) }
{
    let limits = Integer {
        least: 0,
        most: MAX_SOFT_LIMIT,
    };
    let limit = optional(alloc, "soft_limit", &limits, value)?;
    Ok(limit.unwrap_or(MAX_SOFT_LIMIT))
}

/// The start pages.
struct StartPages;

impl Reader for StartPages {
    type Read = PageUrls;

    ghost use Rattle.std.specs.Prelude.{◌≡◌, ◌≤◌, All, length};
    ghost use Rattle.page_origin.specs.PageUrls.{class_of};
    ghost use Rattle.page_origin.specs.declared.class.UrlClass.TheVariants.{Web};
    ghost use Rattle.script_input.specs.ScriptReading as spec;

    ghost reading = { λ _. spec.start_at };

    ghost keeps = { λ _ urls. (length urls ≤ 64) × All (λ url. class_of url ≡ Web) urls };

    fn read(&self, alloc: Global, value: &Value) -> Result<PageUrls, ScriptStop> {
        let urls = list_at(alloc, &Each(WebUrl), MAX_START_PAGES, value)?;
        Ok(PageUrls::from_vec(urls))
    }
}

/// The isolated origins, none where they are left out.
#[tactic(auto, unfolding(crate::specs::ScriptReading::isolated_in, crate::specs::Objects::optional), using(crate::proofs::BelowLemmas::below_gives))]
fn isolated_in(alloc: Global, value: &Value) -> Result<Vec<TupleOrigin>, ScriptStop>
    ensures { GivesBy (λ origins. origins.items) result (spec.isolated_in (view value.now)) }
{
    match value.get("isolated_origins") {
        Some(found) => below(
            alloc,
            "isolated_origins",
            list_at(alloc, &Each(TupleUrl), MAX_ISOLATED_ORIGINS, found),
        ),
        None => Ok(Vec::new(alloc)),
    }
}

#[tactic(auto, unfolding(crate::specs::ScriptReading::script_at, crate::specs::Objects::object_at))]
fn script_at(alloc: Global, value: &Value) -> Result<Script, ScriptStop>
    ensures { Gives result (spec.script_at (view value.now)) }
{
    let keys = [
        "suffixes",
        "spare",
        "soft_limit",
        "start",
        "resources",
        "isolated_origins",
    ];
    object_at(alloc, &["start"], &keys, value)?;
    let rules = rules_in(alloc, value)?;
    let spare = optional(alloc, "spare", &Boolean, value)?;
    let soft_limit = soft_limit_in(alloc, value)?;
    let start = required(alloc, "start", &StartPages, value)?;
    let resources = resources_in(alloc, value)?;
    let isolated = isolated_in(alloc, value)?;
    Ok(Script {
        policy: Policy::Two,
        rules: SiteRules::new(rules, isolated),
        spare: spare.unwrap_or(false),
        soft_limit,
        start,
        resources,
    })
}

fn text_script(alloc: Global, text: &str) -> Result<Script, ScriptStop>
    ensures { Gives result (spec.script_of_value (read text.now)) }
{
    match Value::from_str(alloc, text) {
        Ok(value) => script_at(alloc, &value),
        Err(error) => {
            if error.is_memory() {
                Err(ScriptStop::NoMemory)
            } else {
                Err(refused(alloc, NOT_JSON))
            }
        }
    }
}

/// The script that bytes are, or its first refusal.
pub fn read_script(alloc: Global, bytes: &[u8]) -> Result<Script, ScriptStop>
    ensures { Gives result (spec.script_of bytes.now) }
{
    match str::from_utf8(bytes) {
        Ok(text) => text_script(alloc, text),
        Err(_) => Err(refused(alloc, NOT_JSON)),
    }
}
