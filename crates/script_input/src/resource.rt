//! Resources of a script.

ghost use Rattle.std.specs.Prelude.{◌≡◌, ◌≤◌, ◌||◌, All, IfOk, List, OnOk, [], bytes_eq, decimal, false, length, ℕ};
ghost use Rattle.std.specs.HashSet.{contains_text};
ghost use Rattle.serde_json.specs.View.{view, items_view};
ghost use Rattle.script_model.specs.ActionLimits.{IsActionAmong};
ghost use Rattle.script_model.specs.ResourceData.{IsHeaders, is_resource_class};
ghost use Rattle.script_model.specs.ScriptData.{resource_key};
ghost use Rattle.script_input.specs.Answers.{Gives, GivesBy};
ghost use Rattle.script_input.specs.Checked as checked;
ghost use Rattle.script_input.specs.ForProofs.{AreActions, AreResources};
ghost use Rattle.script_input.specs.Lists.{items_from};
ghost use Rattle.script_input.specs.Resources as spec;

use crate::action::action_at;
use crate::body::{delivery_in, one_body};
use crate::header::Headers;
use crate::list::{Each, list_at};
use crate::object::{object_at, optional, required};
use crate::refusal::{PAST_LIMIT, SAME_KEY, ScriptStop, WRONG_SHAPE, WRONG_URL, refused};
use crate::text::string_at;
use crate::urls::url_of;
use crate::value::{Integer, Reader, below};
use http::StatusCode;
use http_header::HeaderMap;
use script_model::limits::{MAX_ACTIONS, MAX_RESOURCES};
use script_model::{Action, Actions, Head, NoMemory, PageUrl, Resource, Resources, UrlClass};
use serde_json::Value;
use std::alloc::Global;
use std::collections::HashSet;

/// Whether resources have URLs of this class.
fn is_resource_class(class: UrlClass) -> bool
    ensures { result ≡ is_resource_class class }
{
    match class {
        UrlClass::Web | UrlClass::AboutBlank | UrlClass::DataUrl => true,
        UrlClass::AboutSrcdoc | UrlClass::Foreign => false,
    }
}

/// What a resource is found by.
fn key_of(resource: &Resource) -> &str
    ensures { result.now ≡ resource_key resource.now }
{
    resource.url.key()
}

/// Whether one of these keys is this one.
fn is_taken(taken: &HashSet<String>, key: &str) -> bool
    ensures { result ≡ contains_text taken.now key.now }
{
    taken.contains(key)
}

/// Puts a key to those that are taken.
fn take(alloc: Global, taken: &mut HashSet<String>, key: &str) -> Result<(), NoMemory>
    ensures { OnOk result ((other : List ℕ) → contains_text taken.new other ≡ (bytes_eq key.now other || contains_text taken.old other)) }
{
    taken.insert(String::from_str(alloc, key)?)?;
    Ok(())
}

/// The URL of a resource, whose key is none of those that are taken.
#[derive(Drop)]
struct NewUrl<'a> {
    taken: &'a HashSet<String>,
}

impl Reader for NewUrl<'_> {
    type Read = PageUrl;

    ghost use Rattle.std.specs.Prelude.{◌≡◌, false, true};
    ghost use Rattle.std.specs.HashSet.{contains_text};
    ghost use Rattle.page_origin.specs.PageUrls.{class_of, key_of};
    ghost use Rattle.script_model.specs.ResourceData.{is_resource_class};
    ghost use Rattle.script_input.specs.Resources as spec;

    ghost reading = { λ new. spec.url_at (contains_text new.taken.now) };

    ghost keeps = { λ new url. (is_resource_class (class_of url) ≡ true) × (contains_text new.taken.now (key_of url) ≡ false) };

    #[tactic(auto, unfolding(crate::specs::Resources::url_at))]
    fn read(&self, alloc: Global, value: &Value) -> Result<PageUrl, ScriptStop> {
        let text = string_at(alloc, value)?;
        let url = url_of(alloc, text)?;
        if !is_resource_class(url.class()) {
            return Err(refused(alloc, WRONG_URL));
        }
        if is_taken(self.taken, url.key()) {
            return Err(refused(alloc, SAME_KEY));
        }
        Ok(url)
    }
}

/// The status of a response.
struct Status;

impl Reader for Status {
    type Read = StatusCode;

    ghost use Rattle.std.specs.Prelude.{◌≤◌};
    ghost use Rattle.script_input.specs.Values as values;

    ghost reading = { λ _. values.integer_within 200 599 };

    ghost keeps = { λ _ status. (200 ≤ status) × (status ≤ 599) };

    fn read(&self, alloc: Global, value: &Value) -> Result<StatusCode, ScriptStop> {
        let bounds = Integer {
            least: 200,
            most: 599,
        };
        let status = bounds.read(alloc, value)?;
        Ok(StatusCode::from_u16(status as u16).unwrap())
    }
}

/// The status and the header fields of a response, 200 and none where they are left out.
#[tactic(auto, unfolding(crate::specs::Resources::head_in), using(crate::proofs::HeaderLimits::no_headers))]
fn head_in(alloc: Global, value: &Value) -> Result<Head, ScriptStop>
    ensures gives { Gives result (spec.head_in (view value.now)) }
    ensures lowest { IfOk result (λ head. 200 ≤ head.status) }
    ensures highest { IfOk result (λ head. head.status ≤ 599) }
    ensures headers { IfOk result (λ head. IsHeaders head.fields) }
{
    let status = optional(alloc, "status", &Status, value)?;
    let fields = optional(alloc, "headers", &Headers, value)?;
    Ok(Head {
        status: status.unwrap_or(StatusCode::OK),
        fields: fields.unwrap_or(HeaderMap::empty(alloc)),
    })
}

/// One action, in a script of so many resources.
#[derive(Clone, Copy)]
struct ActionAmong {
    count: u32,
}

impl Reader for ActionAmong {
    type Read = Action;

    ghost use Rattle.script_model.specs.ActionLimits.{IsAction, IsActionAmong};
    ghost use Rattle.script_input.specs.Actions as actions;

    ghost reading = { λ limit. actions.action_at limit.count };

    ghost keeps = { λ limit action. IsAction action × IsActionAmong limit.count action };

    fn read(&self, alloc: Global, value: &Value) -> Result<Action, ScriptStop> {
        action_at(alloc, self.count, value)
    }
}

/// The actions of a resource, in a script of so many.
#[derive(Clone, Copy)]
struct ActionsAmong {
    count: u32,
}

impl Reader for ActionsAmong {
    type Read = Actions;

    ghost use Rattle.script_input.specs.ForProofs.{AreActions};
    ghost use Rattle.script_input.specs.Resources as spec;

    ghost reading = { λ limit. spec.actions_at limit.count };

    ghost keeps = { λ limit actions. AreActions limit.count actions };

    #[tactic(auto, using(crate::proofs::ActionLimits::are_actions, crate::proofs::ActionLimits::no_action))]
    fn read(&self, alloc: Global, value: &Value) -> Result<Actions, ScriptStop> {
        let among = ActionAmong { count: self.count };
        let actions = list_at(alloc, &Each(among), MAX_ACTIONS, value)?;
        Ok(Actions::from_vec(actions))
    }
}

/// The actions of a resource, in a script of so many; none where they are left out.
#[tactic(auto, unfolding(crate::specs::Resources::actions_in), using(crate::proofs::ActionLimits::no_actions))]
fn actions_in(alloc: Global, count: u32, value: &Value) -> Result<Actions, ScriptStop>
    ensures gives { Gives result (spec.actions_in count (view value.now)) }
    ensures keeps { IfOk result (AreActions count) }
{
    let actions = optional(alloc, "actions", &ActionsAmong { count }, value)?;
    Ok(actions.unwrap_or(Actions::from_vec(Vec::new(alloc))))
}

#[tactic(auto, unfolding(crate::specs::Resources::resource_at))]
fn resource_at(
    alloc: Global,
    count: u32,
    taken: &HashSet<String>,
    value: &Value,
) -> Result<Resource, ScriptStop>
    ensures gives { Gives result (spec.resource_at count (contains_text taken.now) (view value.now)) }
    ensures new_key { IfOk result (λ resource. contains_text taken.now (resource_key resource) ≡ false) }
    ensures among { IfOk result (λ resource. All (IsActionAmong count) resource.actions) }
{
    let keys = [
        "url",
        "status",
        "headers",
        "body",
        "body_hex",
        "cuts",
        "fail_after",
        "actions",
    ];
    object_at(alloc, &["url"], &keys, value)?;
    one_body(alloc, value)?;
    let url = required(alloc, "url", &NewUrl { taken }, value)?;
    let head = head_in(alloc, value)?;
    let delivery = delivery_in(alloc, value)?;
    let actions = actions_in(alloc, count, value)?;
    Ok(Resource {
        url,
        head,
        body: delivery.body,
        cuts: delivery.cuts,
        fail_after: delivery.fail_after,
        actions,
    })
}

/// The resource at an index, in a script of so many, of a key that is not taken.
#[tactic(auto, using(crate::proofs::BelowLemmas::below_gives))]
fn nth_resource(
    alloc: Global,
    index: usize,
    count: u32,
    taken: &HashSet<String>,
    value: &Value,
) -> Result<Resource, ScriptStop>
    ensures gives { Gives result (checked.below (decimal index) (spec.resource_at count (contains_text taken.now) (view value.now))) }
    ensures new_key { IfOk result (λ resource. contains_text taken.now (resource_key resource) ≡ false) }
    ensures among { IfOk result (λ resource. All (IsActionAmong count) resource.actions) }
{
    let step = format!(in alloc; "{index}")?;
    below(
        alloc,
        step.as_str(),
        resource_at(alloc, count, taken, value),
    )
}

/// All resources of a script; to each the keys of those before it are taken.
#[tactic(auto, using(crate::proofs::ResourceLimits::one_more_key, crate::proofs::ResourceLimits::one_more_resource))]
fn all_resources(alloc: Global, values: &[Value]) -> Result<Vec<Resource>, ScriptStop>
    requires { length values.now ≤ 1024 }
    ensures gives { GivesBy (λ resources. resources.items) result (items_from (λ before. spec.resource_at (length values.now) (spec.is_key_of before)) [] 0 (items_view values.now)) }
    ensures keeps { IfOk result (λ resources. AreResources (length values.now) resources.items) }
    ensures count { IfOk result (λ resources. length resources.items ≡ length values.now) }
{
    let count = values.len() as u32;
    let mut resources = Vec::new(alloc);
    let mut taken = HashSet::new(alloc);
    for (i, value) in values.iter().enumerate() {
        let resource = nth_resource(alloc, i, count, &taken, value)?;
        take(alloc, &mut taken, key_of(&resource))?;
        resources.push(resource)?;
    }
    Ok(resources)
}

#[tactic(auto, unfolding(crate::specs::Resources::resources_at, crate::specs::Lists::list_at), using(crate::proofs::ItemsLemmas::item_count_view))]
fn resources_at(alloc: Global, value: &Value) -> Result<Vec<Resource>, ScriptStop>
    ensures gives { GivesBy (λ resources. resources.items) result (spec.resources_at (view value.now)) }
    ensures few { IfOk result (λ resources. length resources.items ≤ 1024) }
    ensures keeps { IfOk result (λ resources. AreResources (length resources.items) resources.items) }
{
    match value.as_array() {
        Some(values) if values.len() <= MAX_RESOURCES => all_resources(alloc, values.as_slice()),
        Some(_) => Err(refused(alloc, PAST_LIMIT)),
        None => Err(refused(alloc, WRONG_SHAPE)),
    }
}

/// The resources of a script.
struct AllResources;

impl Reader for AllResources {
    type Read = Resources;

    ghost use Rattle.std.specs.Prelude.{◌≤◌, length};
    ghost use Rattle.script_input.specs.ForProofs.{AreResources};
    ghost use Rattle.script_input.specs.Resources as spec;

    ghost reading = { λ _. spec.resources_at };

    ghost keeps = { λ _ resources. (length resources ≤ 1024) × AreResources (length resources) resources };

    fn read(&self, alloc: Global, value: &Value) -> Result<Resources, ScriptStop> {
        let resources = resources_at(alloc, value)?;
        Ok(Resources::from_vec(resources))
    }
}

/// The resources of a script, none where they are left out.
#[tactic(auto, unfolding(crate::specs::Resources::resources_in), using(crate::proofs::ResourceLimits::no_resources))]
pub fn resources_in(alloc: Global, value: &Value) -> Result<Resources, ScriptStop>
    ensures gives { Gives result (spec.resources_in (view value.now)) }
    ensures few { IfOk result (λ resources. length resources ≤ 1024) }
    ensures keeps { IfOk result (λ resources. AreResources (length resources) resources) }
{
    let resources = optional(alloc, "resources", &AllResources, value)?;
    Ok(resources.unwrap_or(Resources::from_vec(Vec::new(alloc))))
}
