//! What holds of every verdict, whoever judges. Each law is the contract of a function without a body.

ghost use Rattle.std.specs.Prelude.{◌≡◌, ℕ, Bool, true, false, List, ◌++◌, Some};
ghost use Rattle.std.specs.Option.{option_or};
ghost use Rattle.site_url.specs.Sites.{SiteRuleData};
ghost use Rattle.page_origin.specs.declared.origin.Origin.{Origin as OriginData};
ghost use Rattle.mime_kind.specs.declared.head.Head.{Head as HeadData};
ghost use Rattle.mime_kind.specs.Kinds.{kind_of};
ghost use Rattle.history_entry.specs.declared.body.Mode.{Mode as ModeData};
ghost use Rattle.history_entry.specs.declared.policy.Policy.{Policy as PolicyData};
ghost use Rattle.script_model.specs.Verdicts.{verdict, early_verdict, bytes_verdict, has_own_rule};
ghost use Rattle.script_model.specs.declared.verdict.Verdict.{Verdict as VerdictData};

/// A verdict is that of the rows that need no byte of the body, whatever the body is; where none of these applies, it is
/// that of the bytes.
#[tactic(auto, using(crate::proofs::Rows::verdict_by_early))]
pub fn a_verdict_is_early_or_by_bytes()
    ensures { (policy : PolicyData) (rules : SiteRuleData) (origin : OriginData) (chain : List (List ℕ)) (mode : ModeData) (head : HeadData)
        (bytes : List ℕ) (ended : Bool) →
        verdict policy rules origin chain mode head bytes ended
        ≡ option_or (early_verdict policy rules origin chain mode head) (bytes_verdict (kind_of head.fields) bytes ended) }
{}

/// A verdict that is settled before the body has ended is that of every body that begins with these bytes, ended or not.
pub fn a_settled_verdict_stays()
    ensures { (policy : PolicyData) (rules : SiteRuleData) (origin : OriginData) (chain : List (List ℕ)) (mode : ModeData) (head : HeadData)
        (bytes more : List ℕ) (ended : Bool) (settled : VerdictData) →
        verdict policy rules origin chain mode head bytes false ≡ Some settled →
        verdict policy rules origin chain mode head (bytes ++ more) ended ≡ Some settled }
{}

/// A verdict allows by one of the rules A1 to A5, and blocks by one of B1 to B8.
#[tactic(auto, using(crate::proofs::Rows::verdict_owns))]
pub fn a_verdict_has_its_own_rule()
    ensures { (policy : PolicyData) (rules : SiteRuleData) (origin : OriginData) (chain : List (List ℕ)) (mode : ModeData) (head : HeadData)
        (bytes : List ℕ) (ended : Bool) (settled : VerdictData) →
        verdict policy rules origin chain mode head bytes ended ≡ Some settled → has_own_rule settled ≡ true }
{}
