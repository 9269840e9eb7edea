//! The rows of a message that tells a commit.

ghost use Rattle.std.specs.Prelude.{◌≡◌, IsTrue, bytes_eq, if◌then◌else◌, not};
ghost use Rattle.std.specs.Option.{option_map_or};
ghost use Rattle.page_origin.specs.Origins.{equal_origins};
ghost use Rattle.history_rules.specs.Judgement as judgement;
ghost use Rattle.history_rules.specs.Navigations as navigations;
ghost use Rattle.history_rules.specs.Orders as orders;

use crate::facts::Facts;
use entry_facts::messages::is_equal;
use history_entry::{RawUrl, Reply, Rule};
use page_origin::Origin;

// The reply to a commit by the URL and the origin of its order: both are compared as whole values.
fn compare(url: &RawUrl, origin: &Origin, order_url: &str, order_origin: &Origin) -> Reply
    ensures { result ≡ (if not (bytes_eq url.now order_url.now) then Reply.Kill Rule.K9 else if not (equal_origins origin.now order_origin.now) then Reply.Kill Rule.K10 else Reply.Ok) }
{
    if url.as_str() != order_url {
        Reply::Kill(Rule::K9)
    } else if !is_equal(origin, order_origin) {
        Reply::Kill(Rule::K10)
    } else {
        Reply::Ok
    }
}

// The reply to a commit by its order, which is waiting.
fn compare_order<F: Facts>(facts: &F, nav: u32, url: &RawUrl, origin: &Origin) -> Reply
    requires { IsTrue (navigations.is_waiting (F.script facts.now) (F.entries facts.now) nav) }
    ensures { result ≡ option_map_or (judgement.compare_order url.now origin.now) (orders.order_of (F.entries facts.now) nav) (Reply.Kill Rule.K8) }
{
    compare(url, origin, facts.order_url(nav), facts.order_origin(nav))
}

/// The reply to a message that tells a commit.
#[tactic(auto, unfolding(history_rules::specs::Judgement::judge_commit))]
pub(crate) fn judge_commit<F: Facts>(
    facts: &F,
    process: u32,
    nav: u32,
    url: &RawUrl,
    origin: &Origin,
) -> Reply
    ensures { result ≡ judgement.judge_commit (F.script facts.now) (F.entries facts.now) process nav url.now origin.now }
{
    if !facts.had_order(process, nav) {
        Reply::Kill(Rule::K8)
    } else if !facts.is_waiting(nav) {
        Reply::Drop(Rule::G3)
    } else {
        compare_order(facts, nav, url, origin)
    }
}
