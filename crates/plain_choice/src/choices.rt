//! The choice of a process for a frame and a site.

ghost use Rattle.std.specs.Prelude.{◌≡◌, ◌||◌, find};
ghost use Rattle.std.specs.Option.{option_or};
ghost use Rattle.history_rules.specs.Choice as choices;
ghost use Rattle.history_rules.specs.Processes.{is_locked_to, live_count, processes};

use page_origin::Site;
use plain_facts::PlainFacts;
use plain_facts::documents::hosted;
use plain_facts::orders::had_order;
use plain_facts::processes::{is_locked_to, is_warm, live_count, started};
use script_model::Entry;
use script_model::limits::{MAX_LIVE_PROCESSES, MAX_STARTED_PROCESSES};

/// Whether a current document of a group is in a process.
fn serves_document(facts: &PlainFacts<'_>, group: u64, process: u64, document: u64) -> bool
    ensures { result ≡ choices.serves_document facts.now.script facts.now.entries group process document }
{
    hosted(facts.entries(), process, document)
        && facts.is_in_group(group, facts.frame_of(document))
        && facts.is_current(document)
}

/// Whether a waiting order of a group is to a process.
fn serves_order(facts: &PlainFacts<'_>, group: u64, process: u64, navigation: u64) -> bool
    ensures { result ≡ choices.serves_order facts.now.script facts.now.entries group process navigation }
{
    had_order(facts.entries(), process, navigation)
        && facts.is_in_group(group, facts.frame_of(navigation))
        && facts.is_waiting(navigation)
}

/// Whether a process has a document or an order of a group, which is that of a navigation of this number.
fn serves(facts: &PlainFacts<'_>, group: u64, process: u64, number: u64) -> bool
    ensures { result ≡ (choices.serves_document facts.now.script facts.now.entries group process number || choices.serves_order facts.now.script facts.now.entries group process number) }
{
    serves_document(facts, group, process, number) || serves_order(facts, group, process, number)
}

/// Whether a process has a current document or a waiting order of a group.
fn serves_group(facts: &PlainFacts<'_>, group: u64, process: u64) -> bool
    ensures { result ≡ choices.serves_group facts.now.script facts.now.entries group process }
{
    (0..facts.navigations_made()).any(|number| serves(facts, group, process, number))
}

/// The least process locked to a site with a current document or a waiting order in a group.
#[tactic(auto, unfolding(history_rules::specs::Choice::process_in_group))]
fn process_in_group(facts: &PlainFacts<'_>, group: u64, site: &Site) -> Option<u64>
    ensures { result ≡ choices.process_in_group facts.now.script facts.now.entries group site.now }
{
    let entries = facts.entries();
    (0..started(entries)).find(|process| is_locked_to(entries, site, *process)
        && serves_group(facts, group, *process))
}

/// The least live process locked to a site.
fn least_of_site(entries: &[Entry], site: &Site) -> Option<u64>
    ensures { result ≡ find (is_locked_to entries.now site.now) (processes entries.now) }
{
    (0..started(entries)).find(|process| is_locked_to(entries, site, *process))
}

/// The least live process locked to a site, where the frame has a parent or the soft limit is reached.
#[tactic(auto, unfolding(history_rules::specs::Choice::process_of_site))]
fn process_of_site(facts: &PlainFacts<'_>, frame: u64, site: &Site, live: u64) -> Option<u64>
    requires { live ≡ live_count facts.now.entries }
    ensures { result ≡ choices.process_of_site facts.now.script facts.now.entries frame site.now }
{
    if facts.parent_of(frame).is_some() || u64::from(facts.script().soft_limit) <= live {
        least_of_site(facts.entries(), site)
    } else {
        None
    }
}

/// The process that is started and not locked.
#[tactic(auto, unfolding(history_rules::specs::Choice::warm_process))]
pub fn warm_process(entries: &[Entry]) -> Option<u64>
    ensures { result ≡ choices.warm_process entries.now }
{
    (0..started(entries)).find(|process| is_warm(entries, *process))
}

/// The next number, where one more process may start.
#[tactic(auto, unfolding(history_rules::specs::Choice::may_start))]
fn new_process(entries: &[Entry], live: u64) -> Option<u64>
    requires { live ≡ live_count entries.now }
    ensures { result ≡ choices.new_process entries.now }
{
    let started = started(entries);
    if live < u64::from(MAX_LIVE_PROCESSES) && started < u64::from(MAX_STARTED_PROCESSES) {
        Some(started)
    } else {
        None
    }
}

/// The number of the next process, where one more may start.
pub fn next_process(entries: &[Entry]) -> Option<u64>
    ensures { result ≡ choices.new_process entries.now }
{
    new_process(entries, live_count(entries))
}

/// The process for a frame and a site outside the frame's group.
fn process_outside(facts: &PlainFacts<'_>, frame: u64, site: &Site) -> Option<u64>
    ensures { result ≡ option_or (choices.process_of_site facts.now.script facts.now.entries frame site.now) (option_or (choices.warm_process facts.now.entries) (choices.new_process facts.now.entries)) }
{
    let entries = facts.entries();
    let live = live_count(entries);
    process_of_site(facts, frame, site, live).or_else(|| warm_process(entries).or_else(
        || new_process(entries, live),
    ))
}

/// The process for a frame and a site, if there is one: that of its group, one of the site for a subframe or past the soft
/// limit, the spare one, or a new one.
#[tactic(auto, unfolding(history_rules::specs::Choice::choice))]
pub fn choice(facts: &PlainFacts<'_>, frame: u64, site: &Site) -> Option<u64>
    ensures { result ≡ choices.choice facts.now.script facts.now.entries frame site.now }
{
    let in_group = match facts.group_of(frame) {
        Some(group) => process_in_group(facts, group, site),
        None => None,
    };
    match in_group {
        Some(process) => Some(process),
        None => process_outside(facts, frame, site),
    }
}
