//! What workers bring back.

ghost use Rattle.std.specs.Prelude.{◌≡◌};
ghost use Rattle.browser_tasks.specs.Outcomes.{goes_on, outcome_key};

use history_rules::Act;
use read_verdict::Step;
use work_queue::{BrowserJob, TaskKey};

/// What an action of a document came to.
#[derive(Drop)]
pub struct ActDone {
    pub document: u32,
    /// The number of the action among the document's.
    pub action: u32,
    pub act: Act,
}

/// One step of the load of a request.
#[derive(Drop)]
pub struct LoadDone {
    pub request: u32,
    pub step: Step,
}

/// What a worker brings back: a job of the browser names its object alone.
#[derive(Drop)]
pub enum Outcome {
    Browser(BrowserJob),
    Act(ActDone),
    Load(LoadDone),
}

impl Outcome {
    /// Of which object its task is.
    pub fn key(&self) -> TaskKey
        ensures { result ≡ outcome_key self.now }
    {
        match self {
            Outcome::Browser(job) => TaskKey::Browser(*job),
            Outcome::Act(done) => TaskKey::Act(done.document),
            Outcome::Load(done) => TaskKey::Load(done.request),
        }
    }

    /// Whether its task goes on after it was added: the head and the pieces of a load have more behind them.
    pub fn goes_on(&self) -> bool
        ensures { result ≡ goes_on self.now }
    {
        match self {
            Outcome::Load(done) => matches!(done.step, Step::Head(_) | Step::Piece(_)),
            _ => false,
        }
    }
}
