//! The requests of one origin to the store.

ghost use Rattle.std.specs.Prelude.{◌≡◌, ◌≤◌, ◌+◌, ◌++◌, ◌∷◌, [], IfOk, List, Ok, OnErr, OnOk, Some, string_bytes, true, vec_len};
ghost use Rattle.std.specs.BTreeMap.{IsUnchanged, get_by_text};
ghost use Rattle.std.specs.Option.{option_copied, option_map};
ghost use Rattle.std.specs.Vec.{vec_capacity};
ghost use Rattle.service_rule.specs.KeyRequests.{key_request, store_requests};
ghost use Rattle.service_rule.specs.Store as store;
ghost use Rattle.origin_service.specs.Shelves.{Holds};

use history_entry::{RequestText, Rule};
use page_origin::{NoMemory, TupleOrigin};
use service_rule::limits::MAX_STORE_KEYS;
use service_rule::request::KeyRequest;
use service_rule::{Asked, ServiceAnswer};
use std::alloc::Global;
use std::collections::BTreeMap;
use std::marker::Model;

/// An origin with its keys and their values, and the requests that led to them.
#[derive(Drop)]
pub(crate) struct Shelf {
    origin: TupleOrigin,
    keys: BTreeMap<String, String>,
    kept: Vec<Asked>,
}

impl Model for Shelf {
    ghost use Rattle.service_rule.specs.KeyRequests.{store_requests};
    ghost use Rattle.origin_service.specs.Shelves.{Holds, ShelfData};

    ghost Value = { ShelfData };

    ghost view = { λ s. record { origin = s.origin; kept = s.kept.items } };

    ghost invariant = { λ s. Holds s.keys (store_requests s.kept.items) };
}

// The value of a key, if it is there.
fn value_in<'a>(keys: &'a BTreeMap<String, String>, key: &str) -> Option<&'a str>
    ensures { option_copied result ≡ option_map string_bytes (get_by_text keys.now key.now) }
{
    match keys.get(key) {
        Some(value) => Some(value.as_str()),
        None => None,
    }
}

// Sets a key.
fn set_key(
    alloc: Global,
    keys: &mut BTreeMap<String, String>,
    key: &str,
    value: &str,
) -> Result<(), NoMemory>
    ensures ok { OnOk result ((earlier : List store.StoreRequest) → Holds keys.old earlier → Holds keys.new (earlier ++ store.SetKey key.now value.now ∷ [])) }
    ensures err { OnErr result (IsUnchanged keys.old keys.new) }
{
    let key = String::from_str(alloc, key)?;
    let value = String::from_str(alloc, value)?;
    keys.insert(key, value)?;
    Ok(())
}

// Removes a key, if it is there.
fn remove_key(keys: &mut BTreeMap<String, String>, key: &str)
    ensures { (earlier : List store.StoreRequest) → Holds keys.old earlier → Holds keys.new (earlier ++ store.RemoveKey key.now ∷ []) }
{
    keys.remove(key);
}

// Changes the keys as a request asks.
fn change_keys(
    alloc: Global,
    keys: &mut BTreeMap<String, String>,
    request: KeyRequest<'_>,
) -> Result<(), NoMemory>
    ensures ok { OnOk result ((earlier : List store.StoreRequest) → Holds keys.old earlier → Holds keys.new (earlier ++ key_request request.entry ∷ [])) }
    ensures err { OnErr result (IsUnchanged keys.old keys.new) }
{
    match request {
        KeyRequest::Get(_) => Ok(()),
        KeyRequest::Set(key, value) => set_key(alloc, keys, key, value),
        KeyRequest::Remove(key) => {
            remove_key(keys, key);
            Ok(())
        }
    }
}

// Puts a request behind the others, where there is room.
fn push_within(kept: &mut Vec<Asked>, asked: Asked)
    requires { vec_len kept.old + 1 ≤ vec_capacity kept.old }
    ensures { kept.new.items ≡ kept.old.items ++ asked ∷ [] }
{
    let _pushed = kept.push(asked);
}

impl Shelf {
    ghost use Rattle.page_origin.specs.Origins.{equal_tuples};
    ghost use Rattle.history_entry.specs.declared.rule.Rule.{Rule};
    ghost use Rattle.service_rule.specs.Services.{is_service_rule};
    ghost use Rattle.origin_service.specs.Kept.{accepted};

    /// The shelf of an origin that was answered nothing yet.
    pub(crate) fn new(alloc: Global, origin: TupleOrigin) -> Self
        ensures { result ≡ record { origin = origin; kept = [] } }
    {
        Shelf {
            origin,
            keys: BTreeMap::new(alloc),
            kept: Vec::new(alloc),
        }
    }

    /// Whether it is that of an origin.
    pub(crate) fn is_of(&self, origin: &TupleOrigin) -> bool
        ensures { result ≡ equal_tuples origin.now self.now.origin }
    {
        *origin == self.origin
    }

    // The answer to a request.
    #[tactic(auto, unfolding(service_rule::specs::Store::answer_request))]
    fn answer(&self, alloc: Global, request: KeyRequest<'_>) -> Result<ServiceAnswer, NoMemory>
        ensures answer { IfOk result (λ answer. answer ≡ store.answer_request (store_requests self.now.kept) (key_request request.entry)) }
        ensures refused { (why : Rule) → result ≡ Ok (ServiceAnswer.Refused why) → is_service_rule why ≡ true }
    {
        match request {
            KeyRequest::Get(key) => match value_in(&self.keys, key) {
                Some(value) => ServiceAnswer::found(alloc, value),
                None => ServiceAnswer::said(alloc, "none"),
            },
            KeyRequest::Set(key, _) => {
                if value_in(&self.keys, key).is_none() && self.keys.len() >= MAX_STORE_KEYS {
                    Ok(ServiceAnswer::Refused(Rule::S2))
                } else {
                    ServiceAnswer::said(alloc, "done")
                }
            }
            KeyRequest::Remove(key) => match value_in(&self.keys, key) {
                Some(_) => ServiceAnswer::said(alloc, "done"),
                None => ServiceAnswer::said(alloc, "none"),
            },
        }
    }

    // Keeps a request that is answered.
    fn keep(
        &mut self,
        alloc: Global,
        document: u32,
        text: &str,
        request: KeyRequest<'_>,
    ) -> Result<(), NoMemory>
        requires { store.store_request text.now ≡ Some (key_request request) }
        ensures ok { OnOk result (self.new ≡ record self.old { kept = self.old.kept ++ record { document = document; request = text.now } ∷ [] }) }
        ensures err { OnErr result (self.new ≡ self.old) }
    {
        let request_text = RequestText::of(alloc, text)?;
        self.kept.reserve(1)?;
        change_keys(alloc, &mut self.keys, request)?;
        push_within(
            &mut self.kept,
            Asked {
                document,
                request: request_text,
            },
        );
        Ok(())
    }

    /// Answers a request, and keeps it unless it is refused or memory runs out.
    pub(crate) fn ask(
        &mut self,
        alloc: Global,
        document: u32,
        text: &str,
        request: KeyRequest<'_>,
    ) -> Result<ServiceAnswer, NoMemory>
        requires { store.store_request text.now ≡ Some (key_request request) }
        ensures answer { IfOk result (λ answer. answer ≡ store.answer_request (store_requests self.old.kept) (key_request request.entry)) }
        ensures refused { (why : Rule) → result ≡ Ok (ServiceAnswer.Refused why) → is_service_rule why ≡ true }
        ensures kept { self.new ≡ record self.old { kept = self.old.kept ++ accepted result document text.now } }
    {
        let answer = self.answer(alloc, request)?;
        if let ServiceAnswer::Said(_) = &answer {
            self.keep(alloc, document, text, request)?;
        }
        Ok(answer)
    }
}
