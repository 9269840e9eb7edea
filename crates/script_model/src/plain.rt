ghost use Rattle.std.specs.Prelude.{◌≡◌, IfOk};
ghost use Rattle.corb_sniff.specs.Answers.{answer_of};
ghost use Rattle.cors_check.specs.Chains.{IsWebChain};
ghost use Rattle.script_model.specs.Verdicts as verdicts;

use crate::early::early_verdict;
use crate::verdict::{Verdict, sniff_kind, sniffed_verdict};
use corb_sniff::{Answer, SniffKind, Sniffer};
use history_entry::{Mode, Policy};
use mime_kind::{Head, Kind, kind_of};
use page_origin::{NoMemory, Origin, PageUrl};
use site_url::SiteRules;
use std::alloc::Global;

/// The sniffer's answer on a whole list.
fn answer_of(kind: SniffKind, bytes: &[u8], ended: bool) -> Answer
    ensures { result ≡ answer_of kind bytes.now ended }
{
    let mut sniffer = Sniffer::new(kind);
    let so_far = sniffer.feed(bytes);
    if ended { sniffer.finish() } else { so_far }
}

/// The verdict by the rows from B4 on.
#[tactic(auto, unfolding(crate::specs::Verdicts::bytes_verdict))]
fn bytes_verdict(kind: Kind, bytes: &[u8], ended: bool) -> Option<Verdict>
    ensures { result ≡ verdicts.bytes_verdict kind bytes.now ended }
{
    sniffed_verdict(kind, answer_of(sniff_kind(kind), bytes, ended))
}

/// The verdict on a response, by all the bytes of its body so far and whether it has ended with them; none exactly where
/// they don't settle it. The plain program on a whole list. Each URL of the chain is of class `UrlClass::Web`.
#[tactic(auto, using(crate::proofs::Rows::verdict_by_early))]
pub fn plain_verdict(
    alloc: Global,
    rules: &SiteRules,
    policy: Policy,
    origin: &Origin,
    chain: &[PageUrl],
    mode: Mode,
    head: &Head,
    bytes: &[u8],
    ended: bool,
) -> Result<Option<Verdict>, NoMemory>
    requires { IsWebChain chain.now }
    ensures { IfOk result (λ answer. answer ≡ verdicts.verdict policy rules.now origin.now chain.now mode head.now bytes.now ended) }
{
    match early_verdict(alloc, rules, policy, origin, chain, mode, head)? {
        Some(verdict) => Ok(Some(verdict)),
        None => Ok(bytes_verdict(kind_of(&head.fields), bytes, ended)),
    }
}
