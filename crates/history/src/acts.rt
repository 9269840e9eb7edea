//! The next action of a document.

ghost use Rattle.std.specs.Prelude.{◌≡◌, IfOk};
ghost use Rattle.history_rules.specs.Sights as sights;

use history_rules::Act;
use plain_facts::PlainFacts;
use plain_facts::documents::actions_done;
use renderer_run::message_of;
use request_facts::sights::sight_of;
use script_model::NoMemory;
use std::alloc::Global;

/// What the next action of a document comes to.
#[tactic(auto, unfolding(history_rules::specs::Sights::next_act, history_rules::specs::Sights::act_of))]
pub fn next_act(alloc: Global, facts: &PlainFacts<'_>, document: u64) -> Result<Act, NoMemory>
    ensures { IfOk result (λ act. act ≡ sights.next_act facts.now.script facts.now.entries document) }
{
    match sight_of(alloc, facts, document)? {
        Some(sight) => {
            let action = actions_done(facts.entries(), document);
            message_of(alloc, facts.script(), &sight, action)
        }
        None => Ok(Act::Done),
    }
}
