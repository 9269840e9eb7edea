//! What workers may bring back to each history that goes on from that of their claim, the contracts of functions without a body.

ghost use Rattle.script_model.specs.ScriptData.{ScriptData};
ghost use Rattle.service_rule.specs.Services.{ServiceRule};
ghost use Rattle.task_work.specs.Laws.{GoneComesBack, GoneIsTooLate, HeldStays, JobsCanFollow, LoadsGoOn, NowBringsBack, OutcomesStay, StandingStays, StepsComeBack};

/// What may follow a history may be brought back to it, and what may be brought back to it may be to each that goes on from it.
pub fn outcomes_may_come_back_later()
    ensures now { (rule : ServiceRule) (s : ScriptData) → NowBringsBack rule s }
    ensures later { (rule : ServiceRule) (s : ScriptData) → OutcomesStay rule s }
{}

/// The outcome of a job of the browser may be brought back as soon as the job was claimed.
pub fn jobs_can_follow()
    ensures { (rule : ServiceRule) (s : ScriptData) → JobsCanFollow rule s }
{}

/// A load that stands within a history stands within each that goes on from it, where a piece is held, and behind the entry of its
/// head or piece.
pub fn loads_stand_within_later_histories()
    ensures stays { (rule : ServiceRule) → StandingStays rule }
    ensures held { (rule : ServiceRule) → HeldStays rule }
    ensures goes_on { (rule : ServiceRule) → LoadsGoOn rule }
{}

/// A step that tells the response may be brought back to each history within which its load stood.
pub fn steps_may_come_back()
    ensures { (rule : ServiceRule) → StepsComeBack rule }
{}

/// Where the process of a load shows dead, that it is gone may be brought back, and comes too late for every entry of the request.
pub fn dead_hosts_make_steps_gone()
    ensures comes { (rule : ServiceRule) → GoneComesBack rule }
    ensures late { (rule : ServiceRule) → GoneIsTooLate rule }
{}
