//! Tasks that a core handed out, and what came of them.

ghost use Rattle.std.specs.Prelude.{◌≡◌, IfOk};
ghost use Rattle.task_work.specs.Claimed.{IsClaimed};

use browser_core::{Claim, Core, Kind, Store};
use history_entry::{Body, Message};
use history_rules::Act;
use script_input::read_script;
use script_model::Script;
use std::alloc::{AllocError, Global};
use std::test::Fail;
use task_work::{ActDone, Step, Task, TaskLoad, act_done, claim_is_read};

/// A core with the first so many entries of the run of one thread.
fn core_after<'a>(alloc: Global, script: &'a Script, count: u32) -> Result<Core<'a, Store>, Fail>
    ensures { IfOk result (λ core. core.script ≡ script.now) }
{
    let mut core = Core::new(alloc, script, Store::new(alloc))?;
    for _ in 0..count {
        core.first(alloc)?;
    }
    Ok(core)
}

/// What a core hands out to a worker of a kind.
fn claimed<'a>(
    alloc: Global,
    script: &'a Script,
    mut core: Core<'a, Store>,
    kind: Kind,
) -> Result<Task, Fail>
    requires { core.script ≡ script.now }
    ensures { IfOk result (IsClaimed script.now) }
{
    match core.claim(alloc, kind)? {
        Claim::Task(task) => {
            claim_is_read(script, core.history().entries(), &task);
            Ok(task)
        }
        Claim::None(_) => Err(Fail::new("no task is ready")),
    }
}

/// The load of a task that is one.
fn load_of(alloc: Global, script: &Script, task: Task) -> Result<TaskLoad<'_>, Fail>
    requires { IsClaimed script.now task }
{
    match task {
        Task::Load(task) => Ok(TaskLoad::new(alloc, script, task)?),
        _ => Err(Fail::new("the task is a load")),
    }
}

/// Writes a step, and says whether the load goes on.
fn write_step(out: &mut String, step: &Step) -> Result<bool, AllocError> {
    match step {
        Step::Held => out.push_str("Held,")?,
        Step::Head(cleared) => {
            out.push_str(if cleared.request() == 0 {
                "Head "
            } else {
                "other "
            })?;
            out.push_str(cleared.rule().code())?;
            out.push_str(",")?;
        }
        Step::Piece(part) => {
            out.push((b'0' + (part.index() % 10) as u8) as char)?;
            out.push_str(str::from_utf8(part.as_bytes()).unwrap_or("?"))?;
            out.push_str(",")?;
        }
        Step::Whole => out.push_str("Whole")?,
        Step::Blocked(rule) => {
            out.push_str("Blocked ")?;
            out.push_str(rule.code())?;
        }
        Step::Fault => out.push_str("Fault")?,
        Step::Gone => out.push_str("Gone")?,
    }
    Ok(matches!(step, Step::Held | Step::Head(_) | Step::Piece(_)))
}

/// The steps of the load of a script's first request, to its end. At the step with this number the process that asked is dead.
fn steps(alloc: Global, script: &Script, gone_at: Option<u32>) -> Result<String, Fail> {
    let core = core_after(alloc, script, 4)?;
    let task = claimed(alloc, script, core, Kind::Loader)?;
    let mut load = load_of(alloc, script, task)?;
    let mut out = String::new(alloc);
    for number in 0..20 {
        let step = load.step(alloc, gone_at == Some(number))?;
        if !write_step(&mut out, &step)? {
            return Ok(out);
        }
    }
    Ok(out)
}

/// A script whose page asks for one resource, at which step the process is dead, and the steps.
type Row = (&'static str, Option<u32>, &'static str);

const HELLO: &str = r#"{"start":["https://a.com/"],"resources":[
{"url":"https://a.com/","actions":[{"do":"fetch","url":"https://b.com/x","mode":"no-cors"}]},
{"url":"https://b.com/x","headers":[["Content-Type","text/html"]],"body":"hello","cuts":[1,3]}]}"#;

const ROWS: &[Row] = &[
    (HELLO, None, "Head A5,0h,1el,2lo,Whole"),
    (HELLO, Some(0), "Gone"),
    (HELLO, Some(3), "Head A5,0h,1el,Gone"),
    (
        r#"{"start":["https://a.com/"],"resources":[
{"url":"https://a.com/","actions":[{"do":"fetch","url":"https://b.com/x","mode":"no-cors"}]},
{"url":"https://b.com/x","headers":[["Content-Type","text/html"]],"body":"<p","cuts":[1]}]}"#,
        None,
        "Held,Blocked B4",
    ),
    // The wire fails behind its first piece.
    (
        r#"{"start":["https://a.com/"],"resources":[
{"url":"https://a.com/","actions":[{"do":"fetch","url":"https://a.com/d","mode":"cors"}]},
{"url":"https://a.com/d","body":"ab","cuts":[1],"fail_after":1}]}"#,
        None,
        "Head A1,0a,Fault",
    ),
    // The script has no such resource.
    (
        r#"{"start":["https://a.com/"],"resources":[
{"url":"https://a.com/","actions":[{"do":"fetch","url":"https://a.com/d","mode":"cors"}]}]}"#,
        None,
        "Head A1,Whole",
    ),
];

#[test]
fn loads_step_to_an_end(rt: HostRuntime) -> Result<(), Fail> {
    for (text, gone_at, want) in ROWS {
        let script = read_script(rt.alloc(), text.as_bytes())?;
        let steps = steps(rt.alloc(), &script, *gone_at)?;
        assert_eq!(rt; steps.as_str(), *want);
    }
    Ok(())
}

/// What the act of a script's first document comes to.
fn first_act(alloc: Global, script: &Script) -> Result<ActDone, Fail> {
    let core = core_after(alloc, script, 3)?;
    match claimed(alloc, script, core, Kind::Renderer)? {
        Task::Act(task) => Ok(act_done(alloc, script, &task)?),
        _ => Err(Fail::new("the task is an act")),
    }
}

#[test]
fn an_act_comes_to_its_message(rt: HostRuntime) -> Result<(), Fail> {
    let script = read_script(rt.alloc(), HELLO.as_bytes())?;
    let done = first_act(rt.alloc(), &script)?;
    assert_eq!(rt; (done.document, done.action), (0, 0));
    let fetches = matches!(
        done.act,
        Act::Message(Message {
            document: 0,
            body: Body::Fetch { .. }
        })
    );
    assert!(rt; fetches, "the page fetches");
    Ok(())
}
