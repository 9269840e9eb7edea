//! The script of a number.

ghost use Rattle.std.specs.Prelude.{◌≡◌, ◌++◌, ◌<◌, All, IfOk, OnOk, length, map};
ghost use Rattle.std.specs.List.{range_with_len};
ghost use Rattle.public_suffix.specs.Reading.{lines, rules_on};
ghost use Rattle.script_gen.specs.Draws.{draws};
ghost use Rattle.script_gen.specs.Generated as spec;

use crate::actions::{frame_actions, page_actions};
use crate::draws::draws_of;
use crate::responses::response_of;
use crate::urls::{url_of_frame, url_of_page};
use script_model::{
    Actions, NoMemory, PageUrl, PageUrls, Policy, Resource, Resources, Rules, RulesRefusal, Script,
    SiteRules,
};
use std::alloc::Global;

/// How many pages there are, and how many frames.
const PAGES: u32 = 8;

/// How many responses there are.
const RESPONSES: u32 = 32;

/// How many draws a page takes: three for frames, 56 for fetches.
const PAGE_DRAWS: usize = 59;

/// How many draws a frame's document takes, all for fetches.
const FRAME_DRAWS: usize = 56;

/// Where the draws of the frames' documents begin.
const PAGES_DRAWS: usize = 472;

/// How many draws there are.
const DRAWS: usize = 920;

/// From how many live processes on pages of one site share one.
const SOFT_LIMIT: u32 = 16;

/// A page.
#[tactic(auto, unfolding(crate::specs::Generated::page_resource), using(crate::proofs::DocumentLimits::page_is_kept))]
fn page(alloc: Global, page: u32, draws: &[u32]) -> Result<Resource, NoMemory>
    requires page { page < 8 }
    requires draws { length draws.now ≡ 920 }
    ensures { IfOk result (λ resource. resource ≡ spec.page_resource draws.now page) }
{
    let first = PAGE_DRAWS * page as usize;
    let actions = page_actions(alloc, page, &draws[first..first + PAGE_DRAWS])?;
    let mut resource = Resource::new(alloc, url_of_page(alloc, page)?);
    resource.actions = Actions::from_vec(actions);
    Ok(resource)
}

/// A frame's document.
#[tactic(auto, unfolding(crate::specs::Generated::frame_resource), using(crate::proofs::DocumentLimits::frame_is_kept))]
fn frame(alloc: Global, frame: u32, draws: &[u32]) -> Result<Resource, NoMemory>
    requires frame { frame < 8 }
    requires draws { length draws.now ≡ 920 }
    ensures { IfOk result (λ resource. resource ≡ spec.frame_resource draws.now frame) }
{
    let first = PAGES_DRAWS + FRAME_DRAWS * frame as usize;
    let actions = frame_actions(alloc, &draws[first..first + FRAME_DRAWS])?;
    let mut resource = Resource::new(alloc, url_of_frame(alloc, frame)?);
    resource.actions = Actions::from_vec(actions);
    Ok(resource)
}

/// Adds the pages.
fn put_pages(alloc: Global, resources: &mut Vec<Resource>, draws: &[u32]) -> Result<(), NoMemory>
    requires { length draws.now ≡ 920 }
    ensures { OnOk result (resources.new.items ≡ resources.old.items ++ map (spec.page_resource draws.now) (range_with_len 0 8)) }
{
    for number in 0..PAGES {
        resources.push(page(alloc, number, draws)?)?;
    }
    Ok(())
}

/// Adds the frames' documents.
fn put_frames(alloc: Global, resources: &mut Vec<Resource>, draws: &[u32]) -> Result<(), NoMemory>
    requires { length draws.now ≡ 920 }
    ensures { OnOk result (resources.new.items ≡ resources.old.items ++ map (spec.frame_resource draws.now) (range_with_len 0 8)) }
{
    for number in 0..PAGES {
        resources.push(frame(alloc, number, draws)?)?;
    }
    Ok(())
}

/// Adds the responses.
fn put_responses(alloc: Global, resources: &mut Vec<Resource>) -> Result<(), NoMemory>
    ensures { OnOk result (resources.new.items ≡ resources.old.items ++ map spec.response_resource (range_with_len 0 32)) }
{
    for number in 0..RESPONSES {
        resources.push(response_of(alloc, number)?)?;
    }
    Ok(())
}

/// All resources, by all draws.
#[tactic(auto, unfolding(crate::specs::Generated::resources))]
fn resources_of(alloc: Global, draws: &[u32]) -> Result<Vec<Resource>, NoMemory>
    requires { length draws.now ≡ 920 }
    ensures { IfOk result (λ resources. resources.items ≡ spec.resources draws.now) }
{
    let mut resources = Vec::new(alloc);
    put_pages(alloc, &mut resources, draws)?;
    put_frames(alloc, &mut resources, draws)?;
    put_responses(alloc, &mut resources)?;
    Ok(resources)
}

/// The URLs of the start pages, which are all pages.
#[tactic(auto, using(crate::proofs::Ranges::map_more))]
fn start_pages(alloc: Global) -> Result<Vec<PageUrl>, NoMemory>
    ensures { IfOk result (λ urls. urls.items ≡ map spec.page_url (range_with_len 0 8)) }
{
    let mut urls = Vec::new(alloc);
    for number in 0..PAGES {
        urls.push(url_of_page(alloc, number)?)?;
    }
    Ok(urls)
}

/// The suffix rules: `test` is a public suffix.
#[tactic(auto, using(crate::proofs::Suffixes::suffixes_are_read))]
fn suffix_rules(alloc: Global) -> Result<Rules, NoMemory>
    ensures { IfOk result (λ rules. rules ≡ rules_on (lines spec.suffix_text)) }
{
    match Rules::read(alloc, b"test\n") {
        Ok(rules) => Ok(rules),
        Err(RulesRefusal::NoMemory) => Err(NoMemory),
        Err(RulesRefusal::BadRule(_)) => unreachable!(),
    }
}

/// The script of a number. Numbers that are equal modulo 2^32 have one script.
#[tactic(auto, unfolding(crate::specs::Generated::generated), using(crate::proofs::ScriptLimits::script_is_kept, crate::proofs::DrawSteps::draw_count))]
pub fn generate(alloc: Global, number: u64) -> Result<Script, NoMemory>
    ensures { IfOk result (λ script. script ≡ spec.generated number) }
{
    let draws = draws_of(alloc, number, DRAWS)?;
    let suffixes = suffix_rules(alloc)?;
    let start = start_pages(alloc)?;
    let resources = resources_of(alloc, &draws)?;
    Ok(Script {
        policy: Policy::Two,
        rules: SiteRules::new(suffixes, Vec::new(alloc)),
        spare: true,
        soft_limit: SOFT_LIMIT,
        start: PageUrls::from_vec(start),
        resources: Resources::from_vec(resources),
    })
}
