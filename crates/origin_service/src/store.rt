//! The service `store`.

ghost use Rattle.std.specs.Prelude.{◌≡◌, ◌<◌, ◌-◌, ◌^◌, ◌++◌, [], IfOk, List, None, Ok, Some, if◌then◌else◌, length, true, ℕ};
ghost use Rattle.std.specs.List.{position};
ghost use Rattle.page_origin.specs.Origins.{equal_tuples};
ghost use Rattle.page_origin.specs.declared.origin.TupleOrigin.{TupleOrigin};
ghost use Rattle.history_entry.specs.declared.rule.Rule.{Rule};
ghost use Rattle.service_rule.specs.KeyRequests.{key_request, store_requests};
ghost use Rattle.service_rule.specs.Services.{is_service_rule};
ghost use Rattle.service_rule.specs.Store as store;
ghost use Rattle.origin_service.specs.Kept.{accepted};
ghost use Rattle.origin_service.specs.Shelves.{kept_by, kept_of};

use crate::service::Service;
use crate::shelf::Shelf;
use history_entry::Rule;
use page_origin::{NoMemory, TupleOrigin};
use service_rule::ServiceAnswer;
use service_rule::request::{KeyRequest, store_request};
use std::alloc::Global;
use std::marker::Model;

/// The service `store`: at most 256 keys with values, kept of each tuple origin by itself.
///
/// The shelf of an origin is found by going through the origins that asked, and a key on it by a map.
#[derive(Drop)]
pub struct Store {
    shelves: Vec<Shelf>,
}

impl Model for Store {
    ghost use Rattle.std.specs.Prelude.{List};
    ghost use Rattle.origin_service.specs.Shelves.{ShelfData};

    ghost Value = { List ShelfData };

    ghost view = { λ s. s.shelves.items };
}

// The place of an origin's shelf, if it has one.
fn place_of(shelves: &[Shelf], origin: &TupleOrigin) -> Option<usize>
    ensures { result ≡ position (λ shelf. equal_tuples origin.now shelf.origin) shelves.now }
{
    shelves.iter().position(|shelf| shelf.is_of(origin))
}

// A shelf of an origin that has none, and its place.
fn add_place(
    alloc: Global,
    shelves: &mut Vec<Shelf>,
    origin: &TupleOrigin,
) -> Result<usize, NoMemory>
    requires { position (λ shelf. equal_tuples origin.now shelf.origin) shelves.old.items ≡ None }
    ensures place { IfOk result (λ place. position (λ shelf. equal_tuples origin.now shelf.origin) shelves.new.items ≡ Some place) }
    ensures kept { (tuple : TupleOrigin) → kept_of shelves.new.items tuple ≡ kept_of shelves.old.items tuple }
{
    let place = shelves.as_slice().len();
    let own = origin.copy(alloc)?;
    shelves.push(Shelf::new(alloc, own))?;
    Ok(place)
}

// The place of an origin's shelf, which is made where there is none.
fn make_place(
    alloc: Global,
    shelves: &mut Vec<Shelf>,
    origin: &TupleOrigin,
) -> Result<usize, NoMemory>
    ensures place { IfOk result (λ place. position (λ shelf. equal_tuples origin.now shelf.origin) shelves.new.items ≡ Some place) }
    ensures kept { (tuple : TupleOrigin) → kept_of shelves.new.items tuple ≡ kept_of shelves.old.items tuple }
{
    match place_of(shelves.as_slice(), origin) {
        Some(place) => Ok(place),
        None => add_place(alloc, shelves, origin),
    }
}

// The answer of the shelf at an origin's place.
fn ask_at(
    alloc: Global,
    shelves: &mut [Shelf],
    place: usize,
    origin: &TupleOrigin,
    document: u32,
    text: &str,
    request: KeyRequest<'_>,
) -> Result<ServiceAnswer, NoMemory>
    requires place { position (λ shelf. equal_tuples origin.now shelf.origin) shelves.old ≡ Some place }
    requires request { store.store_request text.now ≡ Some (key_request request) }
    ensures answer { IfOk result (λ answer. answer ≡ store.answer_request (store_requests (kept_of shelves.old origin.now)) (key_request request.entry)) }
    ensures refused { (why : Rule) → result ≡ Ok (ServiceAnswer.Refused why) → is_service_rule why ≡ true }
    ensures kept { (tuple : TupleOrigin) → kept_of shelves.new tuple ≡ kept_of shelves.old tuple ++ (if equal_tuples tuple origin.now then accepted result document text.now else []) }
{
    let shelf = &mut shelves[place];
    shelf.ask(alloc, document, text, request)
}

// The answer of the shelf of an origin.
fn ask_shelves(
    alloc: Global,
    shelves: &mut Vec<Shelf>,
    origin: &TupleOrigin,
    document: u32,
    text: &str,
    request: KeyRequest<'_>,
) -> Result<ServiceAnswer, NoMemory>
    requires { store.store_request text.now ≡ Some (key_request request) }
    ensures answer { IfOk result (λ answer. answer ≡ store.answer_request (store_requests (kept_of shelves.old.items origin.now)) (key_request request.entry)) }
    ensures refused { (why : Rule) → result ≡ Ok (ServiceAnswer.Refused why) → is_service_rule why ≡ true }
    ensures kept { (tuple : TupleOrigin) → kept_of shelves.new.items tuple ≡ kept_of shelves.old.items tuple ++ (if equal_tuples tuple origin.now then accepted result document text.now else []) }
{
    let place = make_place(alloc, shelves, origin)?;
    let places = shelves.as_mut_slice();
    ask_at(alloc, places, place, origin, document, text, request)
}

impl Store {
    /// A store that was asked nothing.
    pub fn new(alloc: Global) -> Self
        ensures { (name : List ℕ) (tuple : TupleOrigin) → kept_by result name tuple ≡ [] }
    {
        Store {
            shelves: Vec::new(alloc),
        }
    }

    // The answer to the text of a request.
    fn ask_text(
        &mut self,
        alloc: Global,
        origin: &TupleOrigin,
        document: u32,
        text: &str,
    ) -> Result<ServiceAnswer, NoMemory>
        ensures answer { IfOk result (λ answer. answer ≡ store.answer_text (store_requests (kept_of self.old origin.now)) text.now) }
        ensures refused { (why : Rule) → result ≡ Ok (ServiceAnswer.Refused why) → is_service_rule why ≡ true }
        ensures kept { (tuple : TupleOrigin) → kept_of self.new tuple ≡ kept_of self.old tuple ++ (if equal_tuples tuple origin.now then accepted result document text.now else []) }
    {
        match store_request(text) {
            Some(request) => ask_shelves(alloc, &mut self.shelves, origin, document, text, request),
            None => Ok(ServiceAnswer::Refused(Rule::S4)),
        }
    }
}

impl Service for Store {
    ghost use Rattle.service_rule.specs.Store.{store_rule};
    ghost use Rattle.origin_service.specs.Shelves.{kept_by};

    ghost rule = { store_rule };

    ghost kept = { kept_by };

    #[tactic(auto, unfolding(service_rule::specs::Store::store_rule))]
    fn ask(
        &mut self,
        alloc: Global,
        service: &str,
        origin: &TupleOrigin,
        document: u32,
        _live: &[u32],
        request: &str,
    ) -> Result<ServiceAnswer, NoMemory> {
        if service == "store" {
            self.ask_text(alloc, origin, document, request)
        } else {
            Ok(ServiceAnswer::Refused(Rule::S3))
        }
    }
}
