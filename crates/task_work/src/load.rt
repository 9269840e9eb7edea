//! The load of a response.

ghost use Rattle.std.specs.Prelude.{◌≡◌, [], IfOk, List, false, is_some, unwrap_or, ℕ};
ghost use Rattle.std.specs.Option.{option_copied};
ghost use Rattle.cors_check.specs.Chains.{IsWebChain};
ghost use Rattle.history_rules.specs.Redirects.{last_url, response};
ghost use Rattle.history_rules.specs.Responses.{absent};
ghost use Rattle.read_verdict.specs.HasJudged.{HasJudged};
ghost use Rattle.script_model.specs.Pieces.{pieces};
ghost use Rattle.task_work.specs.Claimed.{case_of};

use http::StatusCode;
use http_header::HeaderMap;
use loader::{Judge, Load, ScriptWire, Step, empty_wire, wire_of};
use mime_kind::Head;
use page_origin::key_of_text;
use script_model::{NoMemory, PageUrl, Resource, Script, find};
use std::alloc::Global;
use work_queue::LoadTask;

/// The load of a request that a worker claimed, over the wire of the script's resource.
///
/// Contracts see by `StandsWithin` at which histories it may go on. A load that answered `Whole`, `Blocked`, `Fault` or `Gone`, or
/// that no memory was left, is not stepped again.
#[derive(Drop)]
pub struct TaskLoad<'a> {
    script: &'a Script,
    task: LoadTask,
    load: Load,
    wire: ScriptWire<'a>,
}

/// The last URL of a chain.
#[tactic(auto, using(request_facts::proofs::LastUrl::last_url_is))]
fn last_text(chain: &[PageUrl]) -> &str
    ensures { result.now ≡ last_url chain.now }
{
    match chain.last() {
        Some(url) => url.text(),
        None => "",
    }
}

/// The script's resource of the last URL of a chain, if there is one.
fn last_resource<'a>(script: &'a Script, chain: &[PageUrl]) -> Option<&'a Resource>
    ensures { unwrap_or (option_copied result) (absent (last_url chain.now)) ≡ response script.now chain.now }
{
    find(script, key_of_text(last_text(chain)))
}

/// The judge of the response to a load.
fn judge_of(
    alloc: Global,
    script: &Script,
    task: &LoadTask,
    resource: Option<&Resource>,
) -> Result<Judge, NoMemory>
    requires web { IsWebChain task.now.chain }
    requires response { unwrap_or (option_copied resource) (absent (last_url task.now.chain)) ≡ response script.now task.now.chain }
    ensures { IfOk result (λ judge. HasJudged judge (case_of script.now task.now) [] false) }
{
    let judge = |head: &Head| {
        Judge::new(
            alloc,
            &script.rules,
            script.policy,
            task.request,
            &task.origin,
            task.chain.as_slice(),
            task.mode,
            head,
        )
    };
    match resource {
        Some(resource) => judge(&resource.head),
        None => judge(&Head {
            status: StatusCode::NOT_FOUND,
            fields: HeaderMap::empty(alloc),
        }),
    }
}

/// The wire of a resource, or of nothing where the script has none.
#[tactic(auto, unfolding(script_model::specs::Pieces::pieces))]
fn wire_at<'a>(resource: Option<&'a Resource>) -> ScriptWire<'a>
    ensures { (url : List ℕ) → let r = unwrap_or (option_copied resource.entry) (absent url) in
        result ≡ record { left = pieces r; fails = is_some r.fail_after; faults = 0 } }
{
    match resource {
        Some(resource) => wire_of(resource),
        None => empty_wire(),
    }
}

impl<'a> TaskLoad<'a> {
    ghost use Rattle.std.specs.Prelude.{◌≡◌, ◌↔◌, IfOk, List, Ok, false, true};
    ghost use Rattle.history_entry.specs.declared.entry.Entry.{Entry};
    ghost use Rattle.history_rules.specs.Requests.{has_head};
    ghost use Rattle.service_rule.specs.Services.{ServiceRule};
    ghost use Rattle.work_queue.specs.declared.task.Task.TheVariants.{Load as LoadTaskOf};
    ghost use Rattle.task_work.specs.Claimed.{IsClaimed, IsTaskOf};
    ghost use Rattle.task_work.specs.Stands.{StandsAt, StandsWithin, script_of};
    ghost use Rattle.task_work.specs.Steps.{StepsFrom};

    /// The load of a task that was claimed. It stands within each history whose task it is: at the history itself where the head
    /// is not there yet, and else before the head.
    pub fn new(alloc: Global, script: &'a Script, task: LoadTask) -> Result<TaskLoad<'a>, NoMemory>
        requires claimed { IsClaimed script.now (LoadTaskOf task) }
        ensures stands { IfOk result (λ load. (rule : ServiceRule) (h : List Entry) → IsTaskOf rule script.now h (LoadTaskOf task) → StandsWithin rule h load) }
        ensures at { IfOk result (λ load. (rule : ServiceRule) (h : List Entry) → IsTaskOf rule script.now h (LoadTaskOf task) → has_head h task.request ≡ false → StandsAt rule h load) }
        ensures task { IfOk result (λ load. load.task ≡ task) }
        ensures script { IfOk result (λ load. script_of load ≡ script.now) }
    {
        let resource = last_resource(script, task.chain.as_slice());
        let judge = judge_of(alloc, script, &task, resource)?;
        let load = Load::new(alloc, judge)?;
        Ok(TaskLoad {
            script,
            task,
            load,
            wire: wire_at(resource),
        })
    }

    /// The number of its request.
    pub fn request(&self) -> u32
        ensures { result ≡ self.now.task.request }
    {
        self.task.request
    }

    /// The process of the document that asked.
    pub fn process(&self) -> u32
        ensures { result ≡ self.now.task.process }
    {
        self.task.process
    }

    /// The next step of the load: `Step::Gone` exactly where the process that asked is dead.
    pub fn step(&mut self, alloc: Global, host_dead: bool) -> Result<Step, NoMemory>
        ensures gone { result ≡ Ok Step.Gone ↔ host_dead ≡ true }

        // What it means at each history where the load stands.
        ensures steps { IfOk result (StepsFrom self.old self.new) }
        ensures task { self.new.task ≡ self.old.task }
        ensures script { script_of self.new ≡ script_of self.old }
    {
        if host_dead {
            return Ok(Step::Gone);
        }
        if !self.load.has_room() {
            return Err(NoMemory);
        }
        self.load.step(alloc, &mut self.wire, false)
    }
}
