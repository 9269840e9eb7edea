//! What holds of every ruling, whoever judges.

ghost use Rattle.std.specs.Prelude.{◌≡◌, ℕ, Bool, false, List, ◌++◌};
ghost use Rattle.read_verdict.specs.Cases.{Case, verdict_on};
ghost use Rattle.read_verdict.specs.Rulings.{ruling_of};
ghost use Rattle.read_verdict.specs.declared.ruling.Ruling.TheVariants.{Settled};
ghost use Rattle.script_model.specs.declared.verdict.Verdict.{Verdict as VerdictData};

/// A ruling that is settled stays: whatever follows, the verdict is this one, and so is it where the body ends.
pub fn a_settled_ruling_stays()
    ensures { (case : Case) (bytes more : List ℕ) (ended : Bool) (settled : VerdictData) →
        ruling_of (verdict_on case bytes false) ≡ Settled settled →
        ruling_of (verdict_on case (bytes ++ more) ended) ≡ Settled settled }
{}
