//! The laws of texts, each the contract of a function without a body.

ghost use Rattle.history_text.specs.Texts as texts;

/// Equal texts of histories under one policy are of equal histories.
#[tactic(auto, using(crate::proofs::Lines::one_text))]
pub fn histories_have_one_text()
    ensures { texts.HaveOneText }
{}

/// A text is of one policy at most.
#[tactic(auto, using(crate::proofs::Lines::one_policy))]
pub fn texts_have_one_policy()
    ensures { texts.HaveOnePolicy }
{}
