//! What a row does with a core, and what it expects.

ghost use Rattle.std.specs.Prelude.{◌≡◌, IfOk, true};
ghost use Rattle.cors_check.specs.Chains.{IsWebChain};

use browser_core::{
    ActDone, Applied, BrowserJob, Claim, Core, Kind, LoadDone, Outcome, Step, Store, Task, TaskKey,
};
use history::text_of;
use history_entry::PieceBytes;
use page_origin::{PageUrl, UrlClass};
use read_verdict::{Cleared, Judge, Part};
use renderer_run::message_of;
use script_input::read_script;
use script_model::{Mode, NoMemory, Policy, Resource, Rule, Script, find};
use std::alloc::Global;
use std::process::Abort;
use std::test::Fail;
use work_queue::{ActTask, LoadTask};

/// What came of a task: of a job or an act the whole of it, of a load one step.
#[derive(Clone, Copy, Debug)]
pub enum Came {
    Done,
    Held,
    Head,
    /// The piece of this index, with these bytes.
    Piece(u32, &'static str),
    Whole,
    Blocked(Rule),
    Fault,
    Gone,
    /// Forged: what the action with this number comes to, told of the action that was claimed.
    ActionOf(u64),
    /// Forged: a head whose response was judged in this mode.
    HeadAs(Mode),
    /// Forged: a head with the leave of this request.
    HeadFor(u32),
    /// Forged: the first piece, with these bytes, with the leave of this request.
    PieceFor(u32, &'static str),
}

/// One step of a row.
#[derive(Clone, Copy, Debug)]
pub enum Do {
    /// The first of the next entries is added, so many times.
    First(u32),
    /// A worker of this kind gets the task of this key.
    Claim(Kind, TaskKey),
    /// A worker of this kind gets none, and so many are out.
    None(Kind, u32),
    /// What came of the task that was claimed at this place is brought back.
    Bring(usize, Came, Applied),
    /// It may not be brought back.
    Refused(usize, Came),
    /// Nothing may follow.
    Finished,
}

pub const NAV_0: TaskKey = TaskKey::Browser(BrowserJob::Nav(0));

pub const NAV_1: TaskKey = TaskKey::Browser(BrowserJob::Nav(1));

pub const NAV_2: TaskKey = TaskKey::Browser(BrowserJob::Nav(2));

pub const COMMIT_0: TaskKey = TaskKey::Browser(BrowserJob::Commit(0));

/// A row: what it shows, its script, its steps, and the text of the history after them.
#[derive(Clone, Copy)]
pub struct Row<'r> {
    pub shows: &'static str,
    pub script: &'static str,
    pub steps: &'r [Do],
    pub history: &'static str,
}

fn is_web_chain(urls: &[PageUrl]) -> bool
    ensures { result ≡ true → IsWebChain urls.now }
{
    match urls {
        [] => true,
        [url, later @ ..] => url.class() == UrlClass::Web && is_web_chain(later),
    }
}

/// The resource of the last URL of a request.
fn resource_of<'a>(script: &'a Script, task: &LoadTask) -> Result<&'a Resource, Fail> {
    let Some(url) = task.chain.as_slice().last() else {
        return Err(Fail::new("a request has a URL"));
    };
    match find(script, url.key()) {
        Some(resource) => Ok(resource),
        None => Err(Fail::new("a row's requests have resources")),
    }
}

/// Leave to hand out the response to a request, judged as that of the request with this number in this mode.
fn leave(
    alloc: Global,
    script: &Script,
    task: &LoadTask,
    request: u32,
    mode: Mode,
) -> Result<Cleared, Fail> {
    let resource = resource_of(script, task)?;
    let chain = task.chain.as_slice();
    if !is_web_chain(chain) {
        return Err(Fail::new("a request is for URLs of class Web"));
    }
    let mut judge = Judge::new(
        alloc,
        &script.rules,
        script.policy,
        request,
        &task.origin,
        chain,
        mode,
        &resource.head,
    )?;
    judge.feed(resource.body.as_slice());
    judge.finish();
    match judge.cleared() {
        Some(cleared) => Ok(cleared),
        None => Err(Fail::new("the response may not be read")),
    }
}

/// A head with such a leave.
fn head(
    alloc: Global,
    script: &Script,
    task: &LoadTask,
    request: u32,
    mode: Mode,
) -> Result<Step, Fail> {
    Ok(Step::Head(leave(alloc, script, task, request, mode)?))
}

/// A piece with these bytes, with the leave of the request with this number.
fn piece(
    alloc: Global,
    script: &Script,
    task: &LoadTask,
    request: u32,
    index: u32,
    text: &str,
) -> Result<Step, Fail> {
    let mut bytes = Vec::new(alloc);
    bytes.extend_from_slice(text.as_bytes())?;
    if bytes.is_empty() {
        return Err(Fail::new("a piece has bytes"));
    }
    let cleared = leave(alloc, script, task, request, task.mode)?;
    Ok(Step::Piece(Part::new(index, PieceBytes::new(bytes), cleared)))
}

fn step_of(alloc: Global, script: &Script, task: &LoadTask, came: Came) -> Result<Step, Fail> {
    match came {
        Came::Head => head(alloc, script, task, task.request, task.mode),
        Came::HeadAs(mode) => head(alloc, script, task, task.request, mode),
        Came::HeadFor(request) => head(alloc, script, task, request, task.mode),
        Came::Piece(index, text) => piece(alloc, script, task, task.request, index, text),
        Came::PieceFor(request, text) => piece(alloc, script, task, request, 0, text),
        Came::Whole => Ok(Step::Whole),
        Came::Blocked(rule) => Ok(Step::Blocked(rule)),
        Came::Fault => Ok(Step::Fault),
        Came::Gone => Ok(Step::Gone),
        Came::Held | Came::Done | Came::ActionOf(_) => Ok(Step::Held),
    }
}

/// The number of the action whose act is brought back of a task.
fn told_action(task: &ActTask, came: Came) -> u64 {
    match came {
        Came::ActionOf(number) => number,
        _ => u64::from(task.action),
    }
}

/// What a worker brings back of a task.
fn outcome_of(alloc: Global, script: &Script, task: &Task, came: Came) -> Result<Outcome, Fail> {
    match task {
        Task::Browser(job) => Ok(Outcome::Browser(*job)),
        Task::Act(task) => {
            let act = message_of(alloc, script, &task.sight, told_action(task, came))?;
            Ok(Outcome::Act(ActDone {
                document: task.sight.document,
                action: task.action,
                act,
            }))
        }
        Task::Load(task) => Ok(Outcome::Load(LoadDone {
            request: task.request,
            step: step_of(alloc, script, task, came)?,
        })),
    }
}

/// A script with a core that is driven, and the tasks that were claimed.
///
/// A call of the core that finds no memory is made once more, and then must come out as it would have: so each row also shows, where
/// one allocation fails, that the core was as before (`tests/fail-alloc-core.sh`).
#[derive(Drop)]
struct Driver<'a> {
    script: &'a Script,
    core: Core<'a, Store>,
    claimed: Vec<Task>,
}

impl<'a> Driver<'a> {
    fn first(&mut self, alloc: Global) -> Result<Option<u32>, Fail> {
        match self.core.first(alloc) {
            Ok(place) => Ok(place),
            Err(NoMemory) => Ok(self.core.first(alloc)?),
        }
    }

    fn add_first(&mut self, alloc: Global, count: u32) -> Result<bool, Fail> {
        for _ in 0..count {
            if self.first(alloc)?.is_none() {
                return Ok(false);
            }
        }
        Ok(true)
    }

    fn ask(&mut self, alloc: Global, kind: Kind) -> Result<Claim, Fail> {
        match self.core.claim(alloc, kind) {
            Ok(claim) => Ok(claim),
            Err(NoMemory) => Ok(self.core.claim(alloc, kind)?),
        }
    }

    fn claim(&mut self, alloc: Global, kind: Kind, key: TaskKey) -> Result<bool, Fail> {
        match self.ask(alloc, kind)? {
            Claim::Task(task) => {
                let is_it = task.key() == key;
                self.claimed.push(task)?;
                Ok(is_it)
            }
            Claim::None(_) => Ok(false),
        }
    }

    fn claim_none(&mut self, alloc: Global, kind: Kind, out: u32) -> Result<bool, Fail> {
        match self.ask(alloc, kind)? {
            Claim::Task(_) => Ok(false),
            Claim::None(count) => Ok(count == out),
        }
    }

    fn outcome(&self, alloc: Global, place: usize, came: Came) -> Result<Outcome, Fail> {
        match self.claimed.get(place) {
            Some(task) => outcome_of(alloc, self.script, task, came),
            None => Err(Fail::new("no task was claimed there")),
        }
    }

    /// Brings an outcome back; none where it may not be.
    fn try_to_bring(
        &mut self,
        alloc: Global,
        place: usize,
        came: Came,
    ) -> Result<Option<Result<Applied, NoMemory>>, Fail> {
        let outcome = self.outcome(alloc, place, came)?;
        if !self.core.may_apply(alloc, &outcome)? {
            return Ok(None);
        }
        Ok(Some(self.core.apply(alloc, outcome)))
    }

    fn bring(&mut self, alloc: Global, place: usize, came: Came) -> Result<Option<Applied>, Fail> {
        match self.try_to_bring(alloc, place, came)? {
            None => Ok(None),
            Some(Ok(applied)) => Ok(Some(applied)),
            Some(Err(NoMemory)) => match self.try_to_bring(alloc, place, came)? {
                Some(applied) => Ok(Some(applied?)),
                None => Ok(None),
            },
        }
    }

    /// Whether a step comes out as its row says.
    fn is_as_told(&mut self, alloc: Global, step: Do) -> Result<bool, Fail> {
        match step {
            Do::First(count) => self.add_first(alloc, count),
            Do::Claim(kind, key) => self.claim(alloc, kind, key),
            Do::None(kind, out) => self.claim_none(alloc, kind, out),
            Do::Bring(place, came, applied) => Ok(self.bring(alloc, place, came)? == Some(applied)),
            Do::Refused(place, came) => Ok(self.bring(alloc, place, came)?.is_none()),
            Do::Finished => Ok(self.core.finished(alloc)?),
        }
    }
}

/// The number of the first step that does not come out as told, if one does not, and the text of the history.
fn driven(alloc: Global, script: &Script, steps: &[Do]) -> Result<(Option<usize>, String), Fail> {
    let mut driver = Driver {
        script,
        core: Core::new(alloc, script, Store::new(alloc))?,
        claimed: Vec::new(alloc),
    };
    for (index, step) in steps.iter().enumerate() {
        if !driver.is_as_told(alloc, *step)? {
            return Ok((Some(index), String::new(alloc)));
        }
    }
    let text = text_of(alloc, Policy::One, driver.core.history())?;
    Ok((None, String::from_utf8_lossy(alloc, text.as_slice())?))
}

/// Each row's steps come out as it says.
pub fn assert_driven(rt: &impl Abort, alloc: Global, rows: &[Row<'_>]) -> Result<(), Fail> {
    for row in rows {
        let script = read_script(alloc, row.script.as_bytes())?;
        let (wrong, text) = driven(alloc, &script, row.steps)?;
        assert_eq!(rt; wrong, None, "the step of: {}", row.shows);
        assert_eq!(rt; text.as_str(), row.history, "{}", row.shows);
    }
    Ok(())
}
