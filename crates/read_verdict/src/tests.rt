//! Rows of the table of verdicts, judged in pieces, whole and byte by byte.

mod bodies;
mod largest;
mod requests;
mod resource_policies;

use crate::{Cleared, Judge, Ruling};
use script_model::{Head, Mode, Origin, Policy, Rule, Rules, SiteRules, Verdict};
use std::alloc::Global;
use std::test::Fail;
use test_support::{head, origin, tuple_origin, web_chain};

const MORE: Ruling = Ruling::More;

const A1: Ruling = Ruling::Settled(Verdict::Allow(Rule::A1));

const A2: Ruling = Ruling::Settled(Verdict::Allow(Rule::A2));

const A3: Ruling = Ruling::Settled(Verdict::Allow(Rule::A3));

const A4: Ruling = Ruling::Settled(Verdict::Allow(Rule::A4));

const A5: Ruling = Ruling::Settled(Verdict::Allow(Rule::A5));

const B1: Ruling = Ruling::Settled(Verdict::Block(Rule::B1));

const B2: Ruling = Ruling::Settled(Verdict::Block(Rule::B2));

const B3: Ruling = Ruling::Settled(Verdict::Block(Rule::B3));

const B4: Ruling = Ruling::Settled(Verdict::Block(Rule::B4));

const B5: Ruling = Ruling::Settled(Verdict::Block(Rule::B5));

const B6: Ruling = Ruling::Settled(Verdict::Block(Rule::B6));

const B7: Ruling = Ruling::Settled(Verdict::Block(Rule::B7));

const B8: Ruling = Ruling::Settled(Verdict::Block(Rule::B8));

/// The number of the request that is judged.
const REQUEST: u32 = 7;

/// Site rules of a suffix text and the origins of these URLs.
fn site_rules(alloc: Global, suffixes: &str, isolated: &[&str]) -> Result<SiteRules, Fail> {
    let mut origins = Vec::new(alloc);
    for url in isolated {
        origins.push(tuple_origin(alloc, url)?)?;
    }
    let suffixes = Rules::read(alloc, suffixes.as_bytes())?;
    Ok(SiteRules::new(suffixes, origins))
}

/// Whether leave is given exactly where a ruling allows, by its rule and for the request.
fn is_cleared_by(cleared: Option<Cleared>, ruling: Ruling) -> bool {
    match (cleared, ruling) {
        (Some(cleared), Ruling::Settled(Verdict::Allow(rule))) => {
            cleared.request() == REQUEST && cleared.rule() == rule
        }
        (None, Ruling::Settled(Verdict::Block(_)) | Ruling::More) => true,
        _ => false,
    }
}

/// Whether a judge that was fed nothing gives this early ruling, and the other at the end of a body that is fed whole.
fn is_told_whole(judge: &mut Judge, body: &[u8], early: Ruling, want: Ruling) -> bool {
    let at_once = is_cleared_by(judge.cleared(), early) && judge.feed(b"") == early;
    let fed = judge.feed(body);
    at_once
        && (fed == MORE || fed == want)
        && is_cleared_by(judge.cleared(), fed)
        && judge.finish() == want
        && is_cleared_by(judge.cleared(), want)
}

/// The same where the body is fed byte by byte: until the ruling is settled it is `More`.
fn is_told_singly(judge: &mut Judge, body: &[u8], early: Ruling, want: Ruling) -> bool {
    let mut so_far = early;
    for byte in body {
        let ruling = judge.feed(&[*byte]);
        let stays = so_far == MORE || ruling == so_far;
        if !stays || (ruling != MORE && ruling != want) || !is_cleared_by(judge.cleared(), ruling) {
            return false;
        }
        so_far = ruling;
    }
    judge.finish() == want && is_cleared_by(judge.cleared(), want)
}

/// Whose request for a response is judged, and by what rules.
#[derive(Drop)]
struct Asker {
    rules: SiteRules,
    policy: Policy,
    origin: Origin,
    mode: Mode,
}

/// A page in mode no-cors, of the second policy, without suffix rules and isolated origins.
fn page(alloc: Global, origin: Origin) -> Result<Asker, Fail> {
    Ok(Asker {
        rules: site_rules(alloc, "", &[])?,
        policy: Policy::Two,
        origin,
        mode: Mode::NoCors,
    })
}

/// The page `https://a.com/`, so.
fn own_page(alloc: Global) -> Result<Asker, Fail> {
    page(alloc, origin(alloc, "https://a.com/")?)
}

impl Asker {
    /// A judge of the response to a request with this chain.
    fn judge(&self, alloc: Global, chain: &[&str], head: &Head) -> Result<Judge, Fail> {
        let (rules, policy, origin, mode) = (&self.rules, self.policy, &self.origin, self.mode);
        let chain = web_chain(alloc, chain)?;
        let judge = Judge::new(alloc, rules, policy, REQUEST, origin, &chain, mode, head)?;
        Ok(judge)
    }

    /// Whether the ruling is the early one before the first byte, and the other at the end of the body, fed whole and byte
    /// by byte, with leave exactly where it allows.
    fn is_told(
        &self,
        alloc: Global,
        chain: &[&str],
        head: &Head,
        body: &[u8],
        early: Ruling,
        want: Ruling,
    ) -> Result<bool, Fail> {
        let mut whole = self.judge(alloc, chain, head)?;
        let mut singly = self.judge(alloc, chain, head)?;
        Ok(
            is_told_whole(&mut whole, body, early, want)
                && is_told_singly(&mut singly, body, early, want),
        )
    }

    /// The same of a page of `text/html` that begins with `<p`, with these further fields: B4 by its bytes, and every
    /// other before the first of them.
    fn is_told_of_a_page(
        &self,
        alloc: Global,
        chain: &[&str],
        fields: &[(&'static str, &'static str)],
        want: Ruling,
    ) -> Result<bool, Fail> {
        let mut all = vec![in alloc; ("Content-Type", "text/html")]?;
        all.extend_from_slice(fields)?;
        let head = head(alloc, 200, &all)?;
        let early = if want == B4 { MORE } else { want };
        self.is_told(alloc, chain, &head, b"<p", early, want)
    }
}
