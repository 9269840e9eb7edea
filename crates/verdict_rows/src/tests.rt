//! Rows of the format of scripts and of the table of verdicts.

mod bodies;
mod chains;
mod cors_modes;
mod format_limits;
mod heads;
mod largest;
mod resource_policies;
mod scripts;

use script_model::{
    Head, Mode, Origin, Policy, Rule, Rules, SiteRules, Verdict, early_verdict, plain_verdict,
};
use std::alloc::Global;
use std::test::Fail;
use test_support::{head, origin, tuple_origin, web_chain};

const A1: Option<Verdict> = Some(Verdict::Allow(Rule::A1));

const A2: Option<Verdict> = Some(Verdict::Allow(Rule::A2));

const A3: Option<Verdict> = Some(Verdict::Allow(Rule::A3));

const A4: Option<Verdict> = Some(Verdict::Allow(Rule::A4));

const A5: Option<Verdict> = Some(Verdict::Allow(Rule::A5));

const B1: Option<Verdict> = Some(Verdict::Block(Rule::B1));

const B2: Option<Verdict> = Some(Verdict::Block(Rule::B2));

const B3: Option<Verdict> = Some(Verdict::Block(Rule::B3));

const B4: Option<Verdict> = Some(Verdict::Block(Rule::B4));

const B5: Option<Verdict> = Some(Verdict::Block(Rule::B5));

const B6: Option<Verdict> = Some(Verdict::Block(Rule::B6));

const B7: Option<Verdict> = Some(Verdict::Block(Rule::B7));

const B8: Option<Verdict> = Some(Verdict::Block(Rule::B8));

/// Site rules of a suffix text and the origins of these URLs.
fn site_rules(alloc: Global, suffixes: &str, isolated: &[&str]) -> Result<SiteRules, Fail> {
    let mut origins = Vec::new(alloc);
    for url in isolated {
        origins.push(tuple_origin(alloc, url)?)?;
    }
    let suffixes = Rules::read(alloc, suffixes.as_bytes())?;
    Ok(SiteRules::new(suffixes, origins))
}

/// Whose request for a response is judged, and by what rules.
#[derive(Drop)]
struct Asker {
    rules: SiteRules,
    policy: Policy,
    origin: Origin,
    mode: Mode,
}

/// A page in mode no-cors, of the second policy, without suffix rules and isolated origins.
fn page(alloc: Global, origin: Origin) -> Result<Asker, Fail> {
    Ok(Asker {
        rules: site_rules(alloc, "", &[])?,
        policy: Policy::Two,
        origin,
        mode: Mode::NoCors,
    })
}

/// The page `https://a.com/`, so.
fn own_page(alloc: Global) -> Result<Asker, Fail> {
    page(alloc, origin(alloc, "https://a.com/")?)
}

impl Asker {
    /// The verdict by the chain and the head, and the bytes of the body so far, and whether it has ended.
    fn verdict(
        &self,
        alloc: Global,
        chain: &[&str],
        head: &Head,
        body: &[u8],
        ended: bool,
    ) -> Result<Option<Verdict>, Fail> {
        let (rules, policy, origin, mode) = (&self.rules, self.policy, &self.origin, self.mode);
        let chain = web_chain(alloc, chain)?;
        let verdict = plain_verdict(
            alloc, rules, policy, origin, &chain, mode, head, body, ended,
        )?;
        Ok(verdict)
    }

    /// The verdict by the chain and the head alone.
    fn early(&self, alloc: Global, chain: &[&str], head: &Head) -> Result<Option<Verdict>, Fail> {
        let (rules, policy, origin, mode) = (&self.rules, self.policy, &self.origin, self.mode);
        let chain = web_chain(alloc, chain)?;
        let verdict = early_verdict(alloc, rules, policy, origin, &chain, mode, head)?;
        Ok(verdict)
    }

    /// Whether this is the verdict on a page of `text/html` that begins with `<p`, with these further fields: B4 by its
    /// bytes, and every other before the first of them.
    fn has_of_a_page(
        &self,
        alloc: Global,
        chain: &[&str],
        fields: &[(&'static str, &'static str)],
        want: Option<Verdict>,
    ) -> Result<bool, Fail> {
        let mut all = vec![in alloc; ("Content-Type", "text/html")]?;
        all.extend_from_slice(fields)?;
        let head = head(alloc, 200, &all)?;
        let early = if want == B4 { None } else { want };
        Ok(
            self.early(alloc, chain, &head)? == early
                && self.verdict(alloc, chain, &head, b"", false)? == early
                && self.verdict(alloc, chain, &head, b"<p", false)? == want
                && self.verdict(alloc, chain, &head, b"<p", true)? == want,
        )
    }
}
