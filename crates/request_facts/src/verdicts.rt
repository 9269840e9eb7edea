//! The CORS check of a request, and the verdict on its response.

ghost use Rattle.std.specs.Prelude.{◌≡◌, ◌&&◌, ◌++◌, ◌∷◌, [], IfOk, MatchOption, bytes_eq, false, true};
ghost use Rattle.cors_check.specs.Chains.{IsWebChain, compared_text};
ghost use Rattle.cors_check.specs.Cors.{cors};
ghost use Rattle.page_origin.specs.PageUrls.{class_of};
ghost use Rattle.script_model.specs.Pieces.{has_ended, seen_body};
ghost use Rattle.script_model.specs.Verdicts.{is_failed, verdict};
ghost use Rattle.history_rules.specs.Redirects as redirects;
ghost use Rattle.history_rules.specs.Requests as requests;
ghost use Rattle.request_facts.specs.Views.{response_view};

use crate::chain::Chain;
use crate::redirects::response;
use crate::requests::{request_chain, request_mode, request_origin};
use crate::response::Response;
use cors_check::{Cors, check, compared_text};
use http::StatusCode;
use http_header::HeaderMap;
use mime_kind::Head;
use page_origin::{OriginText, PageUrl};
use plain_facts::PlainFacts;
use script_model::{
    Mode, NoMemory, Origin, Script, UrlClass, UrlRefusal, Verdict, page_url, plain_verdict,
};
use std::alloc::Global;

/// A URL where it is this text and of class Web.
fn web_itself(url: PageUrl, text: &str) -> Option<PageUrl>
    ensures { MatchOption result ((bytes_eq url text.now && redirects.is_web url) ≡ false)
        (λ u. ((bytes_eq url text.now && redirects.is_web url) ≡ true) × (u ≡ text.now) × (class_of u ≡ UrlClass.Web)) }
{
    if url.text() == text && url.class() == UrlClass::Web {
        Some(url)
    } else {
        None
    }
}

/// The URL that a text names, where it names itself and is of class Web.
fn read_web(alloc: Global, text: &str) -> Result<Option<PageUrl>, NoMemory>
    ensures { IfOk result (λ url. MatchOption url (requests.is_read_web text.now ≡ false)
        (λ u. (requests.is_read_web text.now ≡ true) × (u ≡ text.now) × (class_of u ≡ UrlClass.Web))) }
{
    match page_url(alloc, text) {
        Ok(url) => Ok(web_itself(url, text)),
        Err(UrlRefusal::NoMemory) => Err(NoMemory),
        Err(_) => Ok(None),
    }
}

/// Adds the URL that a text names, and says whether it names itself and is of class Web.
fn push_read(alloc: Global, urls: &mut Vec<PageUrl>, text: &str) -> Result<bool, NoMemory>
    ensures read { IfOk result (λ read. read ≡ requests.is_read_web text.now) }
    ensures added { IfOk result (λ read. read ≡ true → urls.new.items ≡ urls.old.items ++ text.now ∷ []) }
    ensures web { IfOk result (λ read. read ≡ true → class_of text.now ≡ UrlClass.Web) }
{
    match read_web(alloc, text)? {
        Some(url) => {
            urls.push(url)?;
            Ok(true)
        }
        None => Ok(false),
    }
}

/// The URLs of a chain, where each names itself and is of class Web; none where one doesn't.
#[tactic(auto, using(crate::proofs::ReadSoFar::read_more, crate::proofs::ReadSoFar::read_stops, crate::proofs::ReadSoFar::read_whole))]
pub fn read_chain(alloc: Global, chain: &Chain) -> Result<Option<Vec<PageUrl>>, NoMemory>
    ensures { IfOk result (λ urls. MatchOption urls (requests.is_read_chain chain.now ≡ false)
        (λ u. (requests.is_read_chain chain.now ≡ true) × (u.items ≡ chain.now) × IsWebChain u.items)) }
{
    let mut urls = Vec::new(alloc);
    for text in chain.as_slice() {
        if !push_read(alloc, &mut urls, text.as_str())? {
            return Ok(None);
        }
    }
    Ok(Some(urls))
}

/// The CORS check of a response.
fn check_response(
    alloc: Global,
    origin: &Origin,
    compared: &OriginText,
    urls: &[PageUrl],
    response: &Response<'_>,
) -> Cors
    requires web { IsWebChain urls.now }
    requires compared { compared.now ≡ compared_text origin.now urls.now }
    ensures { result ≡ cors origin.now urls.now (response_view response.now).head.fields }
{
    match response.resource() {
        Some(resource) => check(origin, compared, urls, &resource.head.fields),
        None => check(origin, compared, urls, &HeaderMap::empty(alloc)),
    }
}

/// Whether the CORS check of a chain of URLs of class Web fails.
fn check_fails(
    alloc: Global,
    origin: &Origin,
    urls: &[PageUrl],
    response: &Response<'_>,
) -> Result<bool, NoMemory>
    requires { IsWebChain urls.now }
    ensures { IfOk result (λ fails. fails ≡ is_failed (cors origin.now urls.now (response_view response.now).head.fields)) }
{
    let compared = compared_text(alloc, origin, urls)?;
    match check_response(alloc, origin, &compared, urls, response) {
        Cors::Failed => Ok(true),
        _ => Ok(false),
    }
}

/// Whether the CORS check of a chain fails.
fn chain_fails(
    alloc: Global,
    script: &Script,
    origin: &Origin,
    chain: &Chain,
) -> Result<bool, NoMemory>
    ensures { IfOk result (λ fails. fails ≡ (requests.is_read_chain chain.now
        && is_failed (cors origin.now chain.now (redirects.response script.now chain.now).head.fields))) }
{
    match read_chain(alloc, chain)? {
        Some(urls) => check_fails(alloc, origin, urls.as_slice(), &response(script, chain)),
        None => Ok(false),
    }
}

/// Whether a request is in mode cors, and the CORS check of its chain so far fails.
#[tactic(auto, unfolding(history_rules::specs::Requests::cors_fails))]
pub fn cors_fails(alloc: Global, facts: &PlainFacts<'_>, request: u64) -> Result<bool, NoMemory>
    ensures { IfOk result (λ fails. fails ≡ requests.cors_fails facts.now.script facts.now.entries request) }
{
    match (
        request_mode(facts.entries(), request),
        request_origin(facts.entries(), request),
    ) {
        (Mode::Cors, Some(origin)) => {
            let chain = request_chain(alloc, facts.entries(), request)?;
            chain_fails(alloc, facts.script(), origin, &chain)
        }
        _ => Ok(false),
    }
}

/// The verdict on a response of a chain of URLs of class Web.
#[tactic(auto, using(script_model::proofs::PiecesJoin::pieces_join))]
fn web_verdict(
    alloc: Global,
    script: &Script,
    origin: &Origin,
    urls: &[PageUrl],
    mode: Mode,
    response: &Response<'_>,
) -> Result<Option<Verdict>, NoMemory>
    requires { IsWebChain urls.now }
    ensures { let r = response_view response.now in
        IfOk result (λ answer. answer ≡ verdict script.now.policy script.now.rules origin.now urls.now mode r.head (seen_body r) (has_ended r)) }
{
    match response.resource() {
        Some(resource) => plain_verdict(
            alloc,
            &script.rules,
            script.policy,
            origin,
            urls,
            mode,
            &resource.head,
            resource.sent_bytes(),
            resource.has_ended(),
        ),
        None => {
            let head = Head {
                status: StatusCode::NOT_FOUND,
                fields: HeaderMap::empty(alloc),
            };
            plain_verdict(
                alloc,
                &script.rules,
                script.policy,
                origin,
                urls,
                mode,
                &head,
                &[],
                true,
            )
        }
    }
}

/// The verdict, by the script's policy, on all that a response's wire carries; of URLs of class Web as they were read.
#[tactic(auto, unfolding(history_rules::specs::Requests::response_verdict))]
pub fn response_verdict(
    alloc: Global,
    script: &Script,
    origin: &Origin,
    chain: &Chain,
    mode: Mode,
    response: &Response<'_>,
) -> Result<Option<Verdict>, NoMemory>
    ensures { IfOk result (λ verdict. verdict ≡ requests.response_verdict script.now origin.now chain.now mode (response_view response.now)) }
{
    match read_chain(alloc, chain)? {
        Some(urls) => web_verdict(alloc, script, origin, urls.as_slice(), mode, response),
        None => Ok(None),
    }
}

/// The verdict on the response of a request.
#[tactic(auto, unfolding(history_rules::specs::Requests::request_verdict))]
pub fn request_verdict(
    alloc: Global,
    facts: &PlainFacts<'_>,
    request: u64,
) -> Result<Option<Verdict>, NoMemory>
    ensures { IfOk result (λ verdict. verdict ≡ requests.request_verdict facts.now.script facts.now.entries request) }
{
    match request_origin(facts.entries(), request) {
        Some(origin) => {
            let chain = request_chain(alloc, facts.entries(), request)?;
            let mode = request_mode(facts.entries(), request);
            let response = response(facts.script(), &chain);
            response_verdict(alloc, facts.script(), origin, &chain, mode, &response)
        }
        None => Ok(None),
    }
}
