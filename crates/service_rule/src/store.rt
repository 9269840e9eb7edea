//! The service `store`: keys with values, kept for each origin by itself.

ghost use Rattle.std.specs.Prelude.{◌≡◌, ◌≤◌, IfOk, Ok, length, option_and_then, false, true};
ghost use Rattle.std.specs.Option.{option_copied, option_map, option_map_or};
ghost use Rattle.history_entry.specs.declared.rule.Rule.{Rule};
ghost use Rattle.service_rule.specs.KeyRequests.{key_request, store_requests};
ghost use Rattle.service_rule.specs.Services.{is_service_rule};
ghost use Rattle.service_rule.specs.Store as store;

use crate::limits::MAX_STORE_KEYS;
use crate::request::{KeyRequest, leaves, store_request};
use crate::service::{Asked, ServiceAnswer, ServiceRule};
use history_entry::Rule;
use page_origin::NoMemory;
use std::alloc::Global;

/// What an accepted request left under a key.
fn left_by<'a>(asked: &'a Asked, key: &str) -> Option<Option<&'a str>>
    ensures { option_map option_copied result ≡ option_and_then (store.leaves key.now) (store.store_request asked.now.request) }
{
    match store_request(asked.request.as_str()) {
        Some(request) => leaves(request, key),
        None => None,
    }
}

/// What the last set or remove of a key left.
fn last_left<'a>(earlier: &'a [Asked], key: &str) -> Option<Option<&'a str>>
    ensures { option_map option_copied result ≡ store.last_left key.now (store_requests earlier.now) }
{
    let mut last = None;
    for asked in earlier {
        last = left_by(asked, key).or(last);
    }
    last
}

/// The value of a key, if it is there.
#[tactic(auto, unfolding(crate::specs::Store::value_of))]
fn value_of<'a>(earlier: &'a [Asked], key: &str) -> Option<&'a str>
    ensures { option_copied result ≡ store.value_of (store_requests earlier.now) key.now }
{
    match last_left(earlier, key) {
        Some(left) => left,
        None => None,
    }
}

/// Whether an accepted request set a key that no later one sets or removes.
fn is_last_set(asked: &Asked, later: &[Asked]) -> bool
    ensures { result ≡ option_map_or (λ request. store.is_last_set request (store_requests later.now)) (store.store_request asked.now.request) false }
{
    match store_request(asked.request.as_str()) {
        Some(KeyRequest::Set(key, _)) => last_left(later, key).is_none(),
        _ => false,
    }
}

/// How many keys are there.
fn key_count(earlier: &[Asked]) -> usize
    ensures { result ≡ store.key_count (store_requests earlier.now) }
{
    let mut count = 0;
    let mut rest = earlier;
    while let Some((asked, later)) = rest.split_first() {
        if is_last_set(asked, later) {
            count += 1;
        }
        rest = later;
    }
    count
}

/// The answer to a request after these earlier ones.
#[tactic(auto, unfolding(crate::specs::Store::answer_request))]
fn answer_request(
    alloc: Global,
    earlier: &[Asked],
    request: KeyRequest<'_>,
) -> Result<ServiceAnswer, NoMemory>
    ensures answer { IfOk result (λ answer. answer ≡ store.answer_request (store_requests earlier.now) (key_request request.entry)) }
    ensures refused { (why : Rule) → result ≡ Ok (ServiceAnswer.Refused why) → is_service_rule why ≡ true }
{
    match request {
        KeyRequest::Get(key) => match value_of(earlier, key) {
            Some(value) => ServiceAnswer::found(alloc, value),
            None => ServiceAnswer::said(alloc, "none"),
        },
        KeyRequest::Set(key, _) => {
            if value_of(earlier, key).is_none() && key_count(earlier) >= MAX_STORE_KEYS {
                Ok(ServiceAnswer::Refused(Rule::S2))
            } else {
                ServiceAnswer::said(alloc, "done")
            }
        }
        KeyRequest::Remove(key) => match value_of(earlier, key) {
            Some(_) => ServiceAnswer::said(alloc, "done"),
            None => ServiceAnswer::said(alloc, "none"),
        },
    }
}

/// The service `store` alone.
#[derive(Drop)]
pub struct PlainStore;

impl ServiceRule for PlainStore {
    ghost use Rattle.service_rule.specs.Store.{store_rule};

    ghost rule = { store_rule };

    #[tactic(auto, unfolding(crate::specs::Store::store_rule))]
    fn answer(
        &self,
        alloc: Global,
        service: &str,
        earlier: &[Asked],
        _live: &[u32],
        request: &str,
    ) -> Result<ServiceAnswer, NoMemory> {
        if service != "store" {
            return Ok(ServiceAnswer::Refused(Rule::S3));
        }
        match store_request(request) {
            Some(request) => answer_request(alloc, earlier, request),
            None => Ok(ServiceAnswer::Refused(Rule::S4)),
        }
    }
}
