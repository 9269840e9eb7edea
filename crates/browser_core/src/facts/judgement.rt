//! The facts of a history, as the judgement of messages asks them.

ghost use Rattle.std.specs.Prelude.{◌≡◌, IsTrue};
ghost use Rattle.browser_core.specs.Orderly.{IsOrderly};
ghost use Rattle.history_rules.specs.Documents.{is_current};

use message_filter::Facts;
use page_origin::{Origin, Site};
use plain_facts::PlainFacts;
use plain_facts::documents::{hosted, origin_of};
use plain_facts::orders::{had_order, order_of};
use plain_facts::processes::lock_of;
use plain_facts::requests::requests_made;
use site_url::SiteRules;
use std::marker::Model;

/// The facts of a script and a legal history of it, found by going through the history at each question.
#[derive(Drop)]
pub(crate) struct HistoryFacts<'a, 'b> {
    plain: &'b PlainFacts<'a>,
}

impl<'a, 'b> Model for HistoryFacts<'a, 'b> {
    ghost use Rattle.plain_facts.specs.HistoryOf.{HistoryOf};
    ghost use Rattle.browser_core.specs.Orderly.{IsOrderly};

    ghost Value = { HistoryOf };

    ghost view = { λ f. f.plain.now };

    ghost invariant = { λ f. IsOrderly f.plain.now.script f.plain.now.entries };
}

impl<'a, 'b> HistoryFacts<'a, 'b> {
    pub(crate) fn of(plain: &'b PlainFacts<'a>) -> Self
        requires { IsOrderly plain.now.script plain.now.entries }
        ensures { result ≡ plain.now }
    {
        HistoryFacts { plain }
    }
}

impl<'a, 'b> Facts for HistoryFacts<'a, 'b> {
    ghost script = { λ f. f.script };

    ghost entries = { λ f. f.entries };

    fn rules(&self) -> &SiteRules {
        &self.plain.script().rules
    }

    fn lock_of(&self, process: u32) -> Option<&Site> {
        lock_of(self.plain.entries(), u64::from(process))
    }

    fn hosted(&self, process: u32, document: u32) -> bool {
        hosted(
            self.plain.entries(),
            u64::from(process),
            u64::from(document),
        )
    }

    fn is_current(&self, document: u32) -> bool {
        self.plain.is_current(u64::from(document))
    }

    fn nth_current(&self, index: u32) -> Option<u32> {
        let mut left = index;
        for document in 0..self.navs_made() {
            if self.is_current(document) {
                if left == 0 {
                    return Some(document);
                }
                left -= 1;
            }
        }
        None
    }

    fn origin_of(&self, document: u32) -> &Origin {
        match origin_of(self.plain.entries(), u64::from(document)) {
            Some(origin) => origin,
            None => unreachable!(),
        }
    }

    #[tactic(auto, using(crate::proofs::Orderly::frame_fits))]
    fn frame_of(&self, document: u32) -> u32 {
        self.plain.frame_of(u64::from(document)) as u32
    }

    fn in_group(&self, document: u32, frame: u32) -> bool {
        let own = self.plain.frame_of(u64::from(document));
        self.plain.share_group(own, u64::from(frame))
    }

    fn may_navigate(&self, document: u32, frame: u32) -> bool {
        self.plain
            .may_navigate(u64::from(document), u64::from(frame))
    }

    fn is_present(&self, frame: u32) -> bool {
        self.plain.is_present(u64::from(frame))
    }

    fn is_child(&self, frame: u32, parent: u32) -> bool {
        self.plain.is_child(u64::from(frame), u64::from(parent))
    }

    fn is_sandboxed(&self, frame: u32) -> bool {
        self.plain.is_sandboxed(u64::from(frame))
    }

    fn document_in(&self, frame: u32) -> Option<u32> {
        match self.plain.document_in(u64::from(frame)) {
            Some(document) => Some(document as u32),
            None => None,
        }
    }

    fn frames_made(&self) -> u32 {
        self.plain.frames_made() as u32
    }

    fn navs_made(&self) -> u32 {
        self.plain.navigations_made() as u32
    }

    fn requests_made(&self) -> u32 {
        requests_made(self.plain.entries()) as u32
    }

    fn had_order(&self, process: u32, nav: u32) -> bool {
        had_order(self.plain.entries(), u64::from(process), u64::from(nav))
    }

    fn is_waiting(&self, nav: u32) -> bool {
        self.plain.is_waiting(u64::from(nav))
    }

    #[tactic(auto, using(crate::proofs::Orderly::waiting_is_ordered))]
    fn order_url(&self, nav: u32) -> &str {
        match order_of(self.plain.entries(), u64::from(nav)) {
            Some(order) => order.url.as_str(),
            None => unreachable!(),
        }
    }

    #[tactic(auto, using(crate::proofs::Orderly::waiting_is_ordered))]
    fn order_origin(&self, nav: u32) -> &Origin {
        match order_of(self.plain.entries(), u64::from(nav)) {
            Some(order) => order.origin,
            None => unreachable!(),
        }
    }
}
