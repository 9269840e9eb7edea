ghost use Rattle.std.specs.Prelude.{◌≡◌};
ghost use Rattle.work_queue.specs.Keys.{is_of, key_of, same_key};

use history_entry::Mode;
use history_rules::Sight;
use page_origin::Origin;
use script_model::PageUrls;

/// The kinds of workers, each named after the tasks that it asks for.
#[derive(Clone, Copy, Debug, PartialEq, Eq)]
pub enum Kind {
    /// Asks for jobs of the browser.
    Browser,
    /// Asks for actions of documents.
    Renderer,
    /// Asks for steps of loads.
    Loader,
}

/// A job of the browser itself, with the number of its object.
#[derive(Clone, Copy, Debug, PartialEq, Eq)]
pub enum BrowserJob {
    /// Opens a start page.
    Open(u32),
    /// Warms a process up.
    Warm,
    /// Goes on with a navigation.
    Nav(u32),
    /// Commits an ordered navigation.
    Commit(u32),
    /// Goes on with a request.
    Request(u32),
    /// Ends a process.
    Exit(u32),
}

/// The URLs of a request, from the first to that of the last redirect.
pub type Chain = PageUrls;

/// The next action of a document.
#[derive(Drop)]
pub struct ActTask {
    pub sight: Sight,
    /// The number of the action among the document's.
    pub action: u32,
}

/// The next step of the load of a request.
#[derive(Drop)]
pub struct LoadTask {
    pub request: u32,
    /// The process of the document that asked.
    pub process: u32,
    pub origin: Origin,
    pub chain: Chain,
    pub mode: Mode,
}

/// Something for a worker to do.
#[derive(Drop)]
pub enum Task {
    Browser(BrowserJob),
    Act(ActTask),
    Load(LoadTask),
}

/// Of which object a task is.
#[derive(Clone, Copy, Debug, PartialEq, Eq)]
pub enum TaskKey {
    Browser(BrowserJob),
    /// The document's number.
    Act(u32),
    /// The request's number.
    Load(u32),
}

impl Task {
    /// Of which object the task is.
    pub fn key(&self) -> TaskKey
        ensures { result ≡ key_of self.now }
    {
        match self {
            Task::Browser(job) => TaskKey::Browser(*job),
            Task::Act(act) => TaskKey::Act(act.sight.document),
            Task::Load(load) => TaskKey::Load(load.request),
        }
    }

    /// Whether workers of this kind ask for the task.
    pub(crate) fn is_of(&self, kind: Kind) -> bool
        ensures { result ≡ is_of kind self.now }
    {
        matches!(
            (kind, self),
            (Kind::Browser, Task::Browser(_))
                | (Kind::Renderer, Task::Act(_))
                | (Kind::Loader, Task::Load(_))
        )
    }
}

pub(crate) fn same_key(a: TaskKey, b: TaskKey) -> bool
    ensures { result ≡ same_key a b }
{
    a == b
}
