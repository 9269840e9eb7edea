ghost use Rattle.std.specs.Prelude.{◌≡◌, ◌≤◌, ◌<◌, All, [], false, length, slice_get, unwrap_or};
ghost use Rattle.std.specs.Option.{option_copied};
ghost use Rattle.page_origin.specs.PageUrls.{class_of};
ghost use Rattle.script_model.specs.ScriptData.{starts, find_resource};
ghost use Rattle.script_model.specs.declared.limits.TheConstants.{MAX_SOFT_LIMIT, MAX_START_PAGES};

use crate::limits::MAX_SOFT_LIMIT;
use crate::pages::PageUrls;
use crate::resource::{Resource, Resources};
use history_entry::Policy;
use page_origin::{PageUrl, UrlClass};
use site_url::SiteRules;
use std::alloc::Global;
use std::marker::Model;

/// What a browser is to do: the pages that it opens, the resources that there are, the rules by which it tells sites
/// apart, and the policy of its verdicts.
///
/// There are at most 64 start pages, each of class Web, and at most 1,024 resources, no two at one URL but for its fragment.
/// The actions of these name only resources that there are.
#[derive(Drop)]
pub struct Script {
    pub policy: Policy,
    pub rules: SiteRules,
    /// Whether a process is kept ready before a page needs it.
    pub spare: bool,
    /// From how many live processes on, up to 64, pages of one site share a process.
    pub soft_limit: u32,
    pub start: PageUrls,
    pub resources: Resources,
}

impl Model for Script {
    ghost use Rattle.script_model.specs.ScriptData.{ScriptData, IsScript};

    ghost Value = { ScriptData };

    ghost view = { λ s. record { policy = s.policy; rules = s.rules; spare = s.spare; soft_limit = s.soft_limit; start = s.start; resources = s.resources } };

    ghost invariant = { λ s. IsScript (record { policy = s.policy; rules = s.rules; spare = s.spare; soft_limit = s.soft_limit; start = s.start; resources = s.resources }) };
}

impl Script {
    /// A script that opens these pages, with all else as where a script leaves it out: the second policy, no spare
    /// process, 64 as the soft limit, and no resources.
    pub fn new(alloc: Global, rules: SiteRules, start: PageUrls) -> Script
        requires few { length start ≤ MAX_START_PAGES }
        requires web { All (λ url. class_of url ≡ UrlClass.Web) start }
        ensures { result ≡ record { policy = Policy.Two; rules = rules; spare = false; soft_limit = MAX_SOFT_LIMIT; start = start; resources = [] } }
    {
        Script {
            policy: Policy::Two,
            rules,
            spare: false,
            soft_limit: MAX_SOFT_LIMIT,
            start,
            resources: Resources::from_vec(Vec::new(alloc)),
        }
    }

    /// How many start pages there are.
    pub fn start_count(&self) -> usize
        ensures count { result ≡ starts self.now }
        ensures few { starts self.now ≤ MAX_START_PAGES }
    {
        self.start.as_slice().len()
    }

    /// The URL of a start page.
    pub fn page(&self, page: u32) -> &PageUrl
        requires { page < starts self.now }
        ensures url { result.now ≡ unwrap_or (slice_get self.now.start page) [] }
        ensures web { class_of result.now ≡ UrlClass.Web }
    {
        self.start.get(page as usize).unwrap()
    }
}

/// The resource with a key, a URL without its fragment.
#[tactic(auto, unfolding(crate::specs::ScriptData::find_resource))]
pub fn find<'a>(script: &'a Script, key: &str) -> Option<&'a Resource>
    ensures { option_copied result ≡ find_resource script.now key.now }
{
    script
        .resources
        .as_slice()
        .iter()
        .find(|resource| resource.url.key() == key)
}
