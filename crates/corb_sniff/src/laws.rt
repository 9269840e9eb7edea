//! What holds of every list of bytes, whoever reads it.

ghost use Rattle.std.specs.Prelude.{◌≡◌, ◌≢◌, ℕ, Bool, true, false, List, ◌++◌, None, IsSome};
ghost use Rattle.corb_sniff.specs.Confirmation.{meets, found_in};
ghost use Rattle.corb_sniff.specs.Hope.{may_be_found};
ghost use Rattle.corb_sniff.specs.Answers.{answer_of};
ghost use Rattle.corb_sniff.specs.declared.kind.SniffKind.{SniffKind as KindData};
ghost use Rattle.corb_sniff.specs.declared.kind.Sniffed.{Sniffed as SniffedData};
ghost use Rattle.corb_sniff.specs.declared.kind.Answer.TheVariants.{More};

/// No list meets two of the grammars and prefixes.
#[tactic(auto, using(crate::proofs::OneMet::one_met))]
pub fn at_most_one_is_met()
    ensures { (a b : SniffedData) (list : List ℕ) →
        meets a list ≡ true → meets b list ≡ true → a ≡ b }
{}

/// The test that computes says exactly whether some continuation, of any length, is found to be something.
pub fn may_be_found_is_exact()
    ensures some { (kind : KindData) (list : List ℕ) →
        may_be_found kind list ≡ true → (more : List ℕ) × IsSome (found_in kind (list ++ more)) }
    ensures none { (kind : KindData) (list more : List ℕ) →
        may_be_found kind list ≡ false → found_in kind (list ++ more) ≡ None }
{}

/// An answer other than `More` is that of every list that begins with these bytes, ended or not.
#[tactic(auto, using(crate::proofs::Settled::answer_stays))]
pub fn answer_stays()
    ensures { (kind : KindData) (list more : List ℕ) (ended : Bool) →
        answer_of kind list false ≢ More → answer_of kind (list ++ more) ended ≡ answer_of kind list false }
{}
