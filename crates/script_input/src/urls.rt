//! URLs of the web, and what stands for their origins.

ghost use Rattle.std.specs.Prelude.{◌≡◌, IfOk};
ghost use Rattle.page_origin.specs.PageUrls.{class_of, page_url_of};
ghost use Rattle.serde_json.specs.View.{view};
ghost use Rattle.script_model.specs.ActionLimits.{IsTarget};
ghost use Rattle.script_input.specs.Answers.{Gives};
ghost use Rattle.script_input.specs.Urls as spec;

use crate::refusal::{ScriptStop, WRONG_URL, refused};
use crate::text::string_at;
use crate::value::Reader;
use script_model::{
    Origin, PageUrl, Target, TupleOrigin, UrlClass, UrlRefusal, page_url, tuple_of,
};
use serde_json::Value;
use std::alloc::Global;

/// The URL that a text names.
pub fn url_of(alloc: Global, text: &str) -> Result<PageUrl, ScriptStop>
    ensures { Gives result (spec.url_of (page_url_of text.now)) }
{
    match page_url(alloc, text) {
        Ok(url) => Ok(url),
        Err(UrlRefusal::NoMemory) => Err(ScriptStop::NoMemory),
        Err(UrlRefusal::TooLong) => Err(refused(alloc, WRONG_URL)),
        Err(UrlRefusal::BadUrl) => Err(refused(alloc, WRONG_URL)),
    }
}

#[tactic(auto, unfolding(crate::specs::Urls::web_of))]
fn web_of(alloc: Global, text: &str) -> Result<PageUrl, ScriptStop>
    ensures gives { Gives result (spec.web_of text.now) }
    ensures web { IfOk result (λ url. class_of url ≡ UrlClass.Web) }
{
    let url = url_of(alloc, text)?;
    if url.class() == UrlClass::Web {
        Ok(url)
    } else {
        Err(refused(alloc, WRONG_URL))
    }
}

/// A URL of class Web.
#[derive(Drop)]
pub struct WebUrl;

impl Reader for WebUrl {
    type Read = PageUrl;

    ghost use Rattle.std.specs.Prelude.{◌≡◌};
    ghost use Rattle.page_origin.specs.PageUrls.{class_of};
    ghost use Rattle.page_origin.specs.declared.class.UrlClass.TheVariants.{Web};
    ghost use Rattle.script_input.specs.Urls as spec;

    ghost reading = { λ _. spec.web_at };

    ghost keeps = { λ _ url. class_of url ≡ Web };

    fn read(&self, alloc: Global, value: &Value) -> Result<PageUrl, ScriptStop> {
        let text = string_at(alloc, value)?;
        web_of(alloc, text)
    }
}

/// A URL of class Web, standing for its tuple origin.
#[derive(Drop)]
pub struct TupleUrl;

impl Reader for TupleUrl {
    type Read = TupleOrigin;

    ghost use Rattle.std.specs.Prelude.{⊤};
    ghost use Rattle.script_input.specs.Urls as spec;

    ghost reading = { λ _. spec.tuple_at };

    ghost keeps = { λ _ _. ⊤ };

    #[tactic(auto, unfolding(crate::specs::Urls::tuple_at))]
    fn read(&self, alloc: Global, value: &Value) -> Result<TupleOrigin, ScriptStop> {
        let url = WebUrl.read(alloc, value)?;
        Ok(tuple_of(alloc, &url)?)
    }
}

fn origin_target(alloc: Global, text: &str) -> Result<Target, ScriptStop>
    ensures gives { Gives result (spec.origin_target text.now) }
    ensures keeps { IfOk result IsTarget }
{
    let url = web_of(alloc, text)?;
    Ok(Target::Of(Origin::Tuple(tuple_of(alloc, &url)?)))
}

#[tactic(auto, unfolding(crate::specs::Urls::target_of))]
fn target_of(alloc: Global, word: &str) -> Result<Target, ScriptStop>
    ensures gives { Gives result (spec.target_of word.now) }
    ensures keeps { IfOk result IsTarget }
{
    match word {
        "*" => Ok(Target::Any),
        "/" => Ok(Target::Own),
        url => origin_target(alloc, url),
    }
}

/// To whom a post is given.
pub struct PostTarget;

impl Reader for PostTarget {
    type Read = Target;

    ghost use Rattle.script_model.specs.ActionLimits.{IsTarget};
    ghost use Rattle.script_input.specs.Urls as spec;

    ghost reading = { λ _. spec.target_at };

    ghost keeps = { λ _ target. IsTarget target };

    fn read(&self, alloc: Global, value: &Value) -> Result<Target, ScriptStop> {
        let word = string_at(alloc, value)?;
        target_of(alloc, word)
    }
}
