//! What the documents of a generated script do.

ghost use Rattle.std.specs.Prelude.{◌≡◌, ◌++◌, ◌∷◌, [], IfOk, OnOk, length, map, replicate};
ghost use Rattle.script_gen.specs.Generated as spec;

use crate::urls::{frame_text, response_text};
use script_model::{
    Action, FrameRef, Mode, NoMemory, RawUrl, RequestText, ServiceName, Src, Target,
};
use std::alloc::Global;

/// How many draws a page's frames take.
const FRAMES: usize = 3;

/// How many posts a page takes, one of each frame.
const POSTS: u32 = 3;

/// An unsandboxed frame, by a draw.
#[tactic(auto, unfolding(crate::specs::Generated::add_frame))]
fn add_frame(alloc: Global, draw: u32) -> Result<Action, NoMemory>
    ensures { IfOk result (λ action. action ≡ spec.add_frame draw) }
{
    let text = frame_text(alloc, draw % 8)?;
    Ok(Action::Frame {
        src: Src::Url(RawUrl::new(text)),
        sandbox: false,
    })
}

#[tactic(auto, unfolding(crate::specs::Generated::fetch_mode))]
fn fetch_mode(draw: u32) -> Mode
    ensures { result ≡ spec.fetch_mode draw }
{
    if draw / 32 % 2 == 0 {
        Mode::NoCors
    } else {
        Mode::Cors
    }
}

/// A fetch of one of the responses, by its draw.
#[tactic(auto, unfolding(crate::specs::Generated::fetch))]
fn fetch(alloc: Global, draw: u32) -> Result<Action, NoMemory>
    ensures { IfOk result (λ action. action ≡ spec.fetch draw) }
{
    let text = response_text(alloc, draw % 32)?;
    Ok(Action::Fetch {
        url: RawUrl::new(text),
        mode: fetch_mode(draw),
    })
}

/// A request to the service `store`.
fn ask_store(alloc: Global, request: &str) -> Result<Action, NoMemory>
    ensures { IfOk result (λ action. action ≡ spec.ask_store request.now) }
{
    let service = ServiceName::of(alloc, "store")?;
    let request = RequestText::of(alloc, request)?;
    Ok(Action::Ask { service, request })
}

/// A post of `done` to the frame's parent, whatever its origin.
fn post_done(alloc: Global) -> Result<Action, NoMemory>
    ensures { IfOk result (λ action. action ≡ spec.post_done) }
{
    let text = RequestText::of(alloc, "done")?;
    Ok(Action::Post {
        frame: FrameRef::Parent,
        target: Target::Any,
        text,
    })
}

/// The request by which a page keeps its name.
fn ask_to_set(alloc: Global, page: u32) -> Result<Action, NoMemory>
    ensures { IfOk result (λ action. action ≡ spec.ask_to_set page) }
{
    let request = format!(in alloc; "set k v{page}")?;
    ask_store(alloc, request.as_str())
}

/// Adds a frame for each of these draws.
fn put_frames(alloc: Global, actions: &mut Vec<Action>, draws: &[u32]) -> Result<(), NoMemory>
    ensures { OnOk result (actions.new.items ≡ actions.old.items ++ map spec.add_frame draws.now) }
{
    for draw in draws {
        actions.push(add_frame(alloc, *draw)?)?;
    }
    Ok(())
}

/// Adds a fetch for each of these draws, and a wait for all of them.
#[tactic(auto, unfolding(crate::specs::Generated::fetch_all))]
fn put_fetches(alloc: Global, actions: &mut Vec<Action>, draws: &[u32]) -> Result<(), NoMemory>
    ensures { OnOk result (actions.new.items ≡ actions.old.items ++ spec.fetch_all draws.now) }
{
    for draw in draws {
        actions.push(fetch(alloc, *draw)?)?;
    }
    actions.push(Action::Wait)?;
    Ok(())
}

/// Adds what a page does behind its fetches: it takes three posts, and keeps its name.
fn put_end(alloc: Global, actions: &mut Vec<Action>, page: u32) -> Result<(), NoMemory>
    ensures { OnOk result (actions.new.items ≡ actions.old.items ++ replicate 3 Action.Recv ++ spec.ask_to_set page ∷ []) }
{
    for _ in 0..POSTS {
        actions.push(Action::Recv)?;
    }
    actions.push(ask_to_set(alloc, page)?)?;
    Ok(())
}

/// What a page does, by its draws.
#[tactic(auto, unfolding(crate::specs::Generated::page_actions))]
pub fn page_actions(alloc: Global, page: u32, draws: &[u32]) -> Result<Vec<Action>, NoMemory>
    requires { length draws.now ≡ 59 }
    ensures { IfOk result (λ actions. actions.items ≡ spec.page_actions page draws.now) }
{
    let (frames, fetches) = draws.split_at(FRAMES);
    let mut actions = Vec::new(alloc);
    put_frames(alloc, &mut actions, frames)?;
    put_fetches(alloc, &mut actions, fetches)?;
    put_end(alloc, &mut actions, page)?;
    Ok(actions)
}

/// What a frame's document does, by its draws.
#[tactic(auto, unfolding(crate::specs::Generated::frame_actions))]
pub fn frame_actions(alloc: Global, draws: &[u32]) -> Result<Vec<Action>, NoMemory>
    ensures { IfOk result (λ actions. actions.items ≡ spec.frame_actions draws.now) }
{
    let mut actions = Vec::new(alloc);
    put_fetches(alloc, &mut actions, draws)?;
    actions.push(post_done(alloc)?)?;
    actions.push(ask_store(alloc, "get k")?)?;
    Ok(actions)
}
