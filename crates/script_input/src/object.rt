//! Objects: which keys they have, and what stands at a key.

ghost use Rattle.std.specs.Prelude.{◌≡◌, IfOk, IfSome, map};
ghost use Rattle.std.specs.Option.{option_copied, option_map};
ghost use Rattle.serde_json.specs.View.{view, members_view};
ghost use Rattle.script_input.specs.Answers.{Gives, GivesBy};
ghost use Rattle.script_input.specs.Values.{string_at};
ghost use Rattle.script_input.specs.Objects as spec;

use crate::refusal::{ScriptStop, WRONG_SHAPE, behind, refused};
use crate::text::string_at;
use crate::value::{Reader, below};
use serde_json::{Map, Value};
use std::alloc::Global;

fn is_one_of(keys: &[&str], key: &str) -> bool
    ensures { result ≡ spec.is_one_of (map (λ k. k.now) keys.now) key.now }
{
    for k in keys {
        if *k == key {
            return true;
        }
    }
    false
}

fn has_only(keys: &[&str], members: &Map<String, Value>) -> bool
    ensures { result ≡ spec.has_only (map (λ k. k.now) keys.now) (members_view members.now.entries) }
{
    for (key, _) in members.iter() {
        if !is_one_of(keys, key.as_str()) {
            return false;
        }
    }
    true
}

fn first_missing<'a>(required: &[&'a str], value: &Value) -> Option<&'a str>
    ensures { option_copied result ≡ spec.first_missing (map (λ k. k.now) required.now) (view value.now) }
{
    for key in required {
        if value.get(*key).is_none() {
            return Some(*key);
        }
    }
    None
}

/// An object that has each required key and no other key than the known ones.
#[tactic(auto, unfolding(crate::specs::Objects::object_at))]
pub fn object_at(
    alloc: Global,
    required: &[&str],
    known: &[&str],
    value: &Value,
) -> Result<(), ScriptStop>
    ensures { Gives result (spec.object_at (map (λ k. k.now) required.now) (map (λ k. k.now) known.now) (view value.now)) }
{
    let Some(members) = value.as_object() else {
        return Err(refused(alloc, WRONG_SHAPE));
    };
    if let Some(key) = first_missing(required, value) {
        return Err(behind(alloc, key, refused(alloc, WRONG_SHAPE)));
    }
    if !has_only(known, members) {
        return Err(refused(alloc, WRONG_SHAPE));
    }
    Ok(())
}

/// What stands at a key that has to be there.
#[tactic(auto, unfolding(crate::specs::Objects::required), using(crate::proofs::BelowLemmas::below_gives))]
pub fn required<R: Reader>(
    alloc: Global,
    key: &str,
    reader: &R,
    value: &Value,
) -> Result<R::Read, ScriptStop>
    ensures gives { Gives result (spec.required key.now (R.reading reader.now) (view value.now)) }
    ensures keeps { IfOk result (R.keeps reader.now) }
{
    match value.get(key) {
        Some(found) => below(alloc, key, reader.read(alloc, found)),
        None => Err(behind(alloc, key, refused(alloc, WRONG_SHAPE))),
    }
}

fn read_optional<R: Reader>(
    alloc: Global,
    reader: &R,
    found: Option<&Value>,
) -> Result<Option<R::Read>, ScriptStop>
    ensures gives { Gives result (spec.read_optional (R.reading reader.now) (option_map (λ v. view v.now) found.entry)) }
    ensures keeps { IfOk result (λ x. IfSome x (R.keeps reader.now)) }
{
    match found {
        Some(value) => Ok(Some(reader.read(alloc, value)?)),
        None => Ok(None),
    }
}

/// What stands at a key that may be there.
#[tactic(auto, unfolding(crate::specs::Objects::optional), using(crate::proofs::BelowLemmas::below_gives))]
pub fn optional<R: Reader>(
    alloc: Global,
    key: &str,
    reader: &R,
    value: &Value,
) -> Result<Option<R::Read>, ScriptStop>
    ensures gives { Gives result (spec.optional key.now (R.reading reader.now) (view value.now)) }
    ensures keeps { IfOk result (λ x. IfSome x (R.keeps reader.now)) }
{
    below(alloc, key, read_optional(alloc, reader, value.get(key)))
}

/// The word at the key that decides the row of a table.
#[tactic(auto, unfolding(crate::specs::Objects::required), using(crate::proofs::BelowLemmas::below_gives))]
pub fn word_at<'a>(alloc: Global, key: &str, value: &'a Value) -> Result<&'a str, ScriptStop>
    ensures { GivesBy (λ word. word.now) result (spec.required key.now string_at (view value.now)) }
{
    match value.get(key) {
        Some(found) => below(alloc, key, string_at(alloc, found)),
        None => Err(behind(alloc, key, refused(alloc, WRONG_SHAPE))),
    }
}
