ghost use Rattle.rule_schemes.specs.Laws.{DerivesAJudgment};

/// What a derivation over a system derives is a judgment, at its root and, since each subtree is a derivation, at each node.
#[tactic(auto, using(crate::proofs::DerivationLemmas::derives_a_judgment))]
pub fn derivations_derive_judgments()
    ensures { DerivesAJudgment }
{}
