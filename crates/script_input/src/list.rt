//! Lists, whose items are read one after another.

ghost use Rattle.std.specs.Prelude.{◌≡◌, ◌≤◌, List, [], ◌∷◌, ◌++◌, IfOk, length, decimal};
ghost use Rattle.serde_json.specs.Data.{Data};
ghost use Rattle.serde_json.specs.View.{view, items_view};
ghost use Rattle.script_input.specs.Answers.{Gives, GivesBy};
ghost use Rattle.script_input.specs.Checked as checked;
ghost use Rattle.script_input.specs.Checked.{Checked};
ghost use Rattle.script_input.specs.Lists as spec;

use crate::refusal::{PAST_LIMIT, ScriptStop, WRONG_SHAPE, refused};
use crate::value::{Reader, below};
use serde_json::Value;
use std::alloc::Global;

/// What reads the items of a list, each beside those before it.
pub trait ItemReader {
    type Item: Drop;

    ghost item_reading: { Self → List Self.Item → Data → Checked Self.Item };

    ghost listed: { Self → List Self.Item → Type 0 };

    fn item(
        &self,
        alloc: Global,
        before: &[Self::Item],
        value: &Value,
    ) -> Result<Self::Item, ScriptStop>
        requires { listed self.now before.now }
        ensures gives { Gives result (item_reading self.now before.now (view value.now)) }
        ensures listed { IfOk result (λ x. listed self.now (before.now ++ x ∷ [])) };
}

/// Items that are read without regard to those before them.
#[derive(Drop)]
pub struct Each<R>(pub R);

impl<R: Reader> ItemReader for Each<R> {
    type Item = R::Read;

    ghost use Rattle.std.specs.Prelude.{All};

    ghost item_reading = { λ each _. R.reading each.0 };

    ghost listed = { λ each items. All (R.keeps each.0) items };

    #[tactic(auto, using(crate::proofs::ItemsLemmas::all_more))]
    fn item(
        &self,
        alloc: Global,
        _before: &[R::Read],
        value: &Value,
    ) -> Result<R::Read, ScriptStop> {
        self.0.read(alloc, value)
    }
}

#[tactic(auto, using(crate::proofs::BelowLemmas::below_gives))]
fn item_at<R: ItemReader>(
    alloc: Global,
    reader: &R,
    before: &[R::Item],
    index: usize,
    value: &Value,
) -> Result<R::Item, ScriptStop>
    requires { R.listed reader.now before.now }
    ensures gives { Gives result (checked.below (decimal index) (R.item_reading reader.now before.now (view value.now))) }
    ensures listed { IfOk result (λ x. R.listed reader.now (before.now ++ x ∷ [])) }
{
    let step = format!(in alloc; "{index}")?;
    below(alloc, step.as_str(), reader.item(alloc, before, value))
}

fn items<R: ItemReader>(
    alloc: Global,
    reader: &R,
    values: &[Value],
) -> Result<Vec<R::Item>, ScriptStop>
    requires { R.listed reader.now [] }
    ensures gives { GivesBy (λ v. v.items) result (spec.items_from (R.item_reading reader.now) [] 0 (items_view values.now)) }
    ensures listed { IfOk result (λ v. R.listed reader.now v.items) }
    ensures count { IfOk result (λ v. length v.items ≡ length values.now) }
{
    let mut items = Vec::new(alloc);
    for (i, value) in values.iter().enumerate() {
        let item = item_at(alloc, reader, items.as_slice(), i, value)?;
        items.push(item)?;
    }
    Ok(items)
}

/// A list of at most so many items.
#[tactic(auto, unfolding(crate::specs::Lists::list_at), using(crate::proofs::ItemsLemmas::item_count_view))]
pub fn list_at<R: ItemReader>(
    alloc: Global,
    reader: &R,
    most: usize,
    value: &Value,
) -> Result<Vec<R::Item>, ScriptStop>
    requires { R.listed reader.now [] }
    ensures gives { GivesBy (λ v. v.items) result (spec.list_at (R.item_reading reader.now) most (view value.now)) }
    ensures listed { IfOk result (λ v. R.listed reader.now v.items) }
    ensures few { IfOk result (λ v. length v.items ≤ most) }
    ensures count { IfOk result (λ v. length v.items ≡ spec.count_of (view value.now)) }
{
    match value.as_array() {
        Some(values) if values.len() <= most => items(alloc, reader, values.as_slice()),
        Some(_) => Err(refused(alloc, PAST_LIMIT)),
        None => Err(refused(alloc, WRONG_SHAPE)),
    }
}
