ghost use Rattle.std.specs.Prelude.{◌≡◌, true};
ghost use Rattle.read_verdict.specs.Rulings.{has_own_rule};

use crate::cleared::Cleared;
use crate::ruling::{Ruling, ruling_of};
use corb_sniff::{Answer, Sniffer};
use script_model::{
    Head, Kind, Mode, NoMemory, Origin, PageUrl, Policy, SiteRules, Verdict, early_verdict,
    kind_of, sniff_kind, sniffed_verdict,
};
use std::alloc::Global;

/// Judges the response to one request while its body comes in pieces.
///
/// After any pieces the ruling is the verdict on all their bytes, and one that is settled stays whatever follows. Nothing
/// is fed to a judge that was finished.
#[derive(Drop)]
pub struct Judge {
    request: u32,
    kind: Kind,
    sniffer: Sniffer,
    ruling: Ruling,
    ghost own_rule: { has_own_rule ruling ≡ true },
}

impl Judge {
    ghost use Rattle.std.specs.Prelude.{◌≡◌, ◌≢◌, ℕ, Bool, true, false, List, [], ◌++◌, Some, IfOk, IfSome, IfNone};
    ghost use Rattle.cors_check.specs.Chains.{IsWebChain};
    ghost use Rattle.history_entry.specs.declared.rule.Rule.{Rule as RuleData};
    ghost use Rattle.script_model.specs.declared.verdict.Verdict.TheVariants.{Allow};
    ghost use Rattle.script_model.specs.Verdicts.{sniffed_verdict};
    ghost use Rattle.read_verdict.specs.Cases.{Case, verdict_on};
    ghost use Rattle.read_verdict.specs.Rulings.{ruling_of};
    ghost use Rattle.read_verdict.specs.HasJudged.{HasJudged};
    ghost use Rattle.read_verdict.specs.declared.ruling.Ruling.TheVariants.{More};

    /// A judge of the response to a request, by the head of that response. It was fed nothing; where the rows that need
    /// no byte decide, it is settled. Each URL of the chain is of class `UrlClass::Web`.
    pub fn new(
        alloc: Global,
        rules: &SiteRules,
        policy: Policy,
        request: u32,
        origin: &Origin,
        chain: &[PageUrl],
        mode: Mode,
        head: &Head,
    ) -> Result<Judge, NoMemory>
        requires { IsWebChain chain.now }
        ensures { IfOk result (λ judge. HasJudged judge (record {
          rules = rules.now;
          policy = policy;
          request = request;
          origin = origin.now;
          chain = chain.now;
          mode = mode;
          head = head.now;
        }) [] false) }
    {
        let early = early_verdict(alloc, rules, policy, origin, chain, mode, head)?;
        let kind = kind_of(&head.fields);
        let mut sniffer = Sniffer::new(sniff_kind(kind));
        let answer = sniffer.feed(b"");
        let verdict = early.or(sniffed_verdict(kind, answer));
        Ok(Judge {
            request,
            kind,
            sniffer,
            ruling: ruling_of(verdict),
        })
    }

    /// Keeps the ruling by the sniffer's answer, and tells it.
    fn rule_by(&mut self, answer: Answer) -> Ruling
        ensures told { result ≡ ruling_of (sniffed_verdict self.old.kind answer) }
        ensures kept { self.new.ruling ≡ result }
        ensures request { self.new.request ≡ self.old.request }
        ensures kind { self.new.kind ≡ self.old.kind }
        ensures sniffer { self.new.sniffer ≡ self.old.sniffer }
    {
        self.ruling = ruling_of(sniffed_verdict(self.kind, answer));
        self.ruling
    }

    /// Judges one more piece. The ruling is the verdict on all bytes so far: `More` exactly where they settle none.
    pub fn feed(&mut self, piece: &[u8]) -> Ruling
        ensures judged { (case : Case) (bytes : List ℕ) →
            HasJudged self.old case bytes false → HasJudged self.new case (bytes ++ piece.now) false }
        ensures ruling { (case : Case) (bytes : List ℕ) →
            HasJudged self.old case bytes false → result ≡ ruling_of (verdict_on case (bytes ++ piece.now) false) }
    {
        match self.ruling {
            Ruling::Settled(_) => self.ruling,
            Ruling::More => {
                let answer = self.sniffer.feed(piece);
                self.rule_by(answer)
            }
        }
    }

    /// Ends the body. The ruling is the verdict on all bytes that were fed, and never `More`. Nothing is fed afterwards.
    pub fn finish(&mut self) -> Ruling
        ensures settled { result ≢ Ruling.More }
        ensures judged { (case : Case) (bytes : List ℕ) →
            HasJudged self.old case bytes false → HasJudged self.new case bytes true }
        ensures ruling { (case : Case) (bytes : List ℕ) →
            HasJudged self.old case bytes false → result ≡ ruling_of (verdict_on case bytes true) }
    {
        match self.ruling {
            Ruling::Settled(_) => self.ruling,
            Ruling::More => {
                let answer = self.sniffer.finish();
                self.rule_by(answer)
            }
        }
    }

    /// The ruling on all bytes so far.
    pub fn ruling(&self) -> Ruling
        ensures { (case : Case) (bytes : List ℕ) (ended : Bool) →
            HasJudged self.now case bytes ended → result ≡ ruling_of (verdict_on case bytes ended) }
    {
        self.ruling
    }

    /// Leave to hand out the response, where the verdict on all bytes so far is settled and allows it.
    pub fn cleared(&self) -> Option<Cleared>
        // It is for the judge's own request, and the verdict is to allow the response by its rule.
        ensures some { (case : Case) (bytes : List ℕ) (ended : Bool) → HasJudged self.now case bytes ended →
            IfSome result (λ cleared. (cleared.request ≡ case.request)
            × (verdict_on case bytes ended ≡ Some (Allow cleared.rule))) }
        // There is none exactly where no verdict that allows is settled.
        ensures none { (case : Case) (bytes : List ℕ) (ended : Bool) → HasJudged self.now case bytes ended →
            IfNone result ((rule : RuleData) → verdict_on case bytes ended ≢ Some (Allow rule)) }
    {
        match self.ruling {
            Ruling::Settled(Verdict::Allow(rule)) => Some(Cleared::new(self.request, rule)),
            Ruling::Settled(Verdict::Block(_)) | Ruling::More => None,
        }
    }
}
