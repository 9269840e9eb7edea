//! What standings tell of later histories, each the contract of a function without a body.

ghost use Rattle.process_standings.specs.Laws.{DeadGetNothing, DeadGetNothingLater, DeadStayDead, OneNumberASite, OneSiteANumber, RequestsStay};
ghost use Rattle.script_model.specs.ScriptData.{ScriptData};
ghost use Rattle.service_rule.specs.Services.{ServiceRule};

/// A number stands for one site, and a site for one number, as long as the history grows.
pub fn numbers_stand_for_sites()
    ensures site { OneSiteANumber }
    ensures number { OneNumberASite }
{}

/// A process that is dead in a prefix of a history is dead in the whole.
pub fn dead_processes_stay_dead()
    ensures { DeadStayDead }
{}

/// The process of a request's document stays the same.
pub fn requests_stay_in_their_processes()
    ensures { (rule : ServiceRule) (s : ScriptData) → RequestsStay rule s }
{}

/// A request whose document's process is dead is not live, and none of its redirects, its head, pieces and end may follow.
pub fn dead_processes_get_nothing()
    ensures now { (rule : ServiceRule) (s : ScriptData) → DeadGetNothing rule s }
    ensures later { (rule : ServiceRule) (s : ScriptData) → DeadGetNothingLater rule s }
{}
