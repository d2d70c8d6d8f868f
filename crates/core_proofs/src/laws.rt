//! What right steps keep. The functions do nothing: their contracts are the laws.

ghost use Rattle.core_proofs.specs.Laws.{RuleStepDerives, MakesDerives, LeadsToOne};
ghost use Rattle.core_proofs.specs.Trees.{ProvesAreTrees, ValuesAreOfTrees};

/// The instance of a right step by a rule is a derivation.
pub fn rule_step_derives()
    ensures { RuleStepDerives }
{}

/// What right steps make of derivations derives the goal.
pub fn makes_derives()
    ensures { MakesDerives }
{}

/// Right steps lead to one standing only.
pub fn steps_lead_to_one()
    ensures { LeadsToOne }
{}

/// Without contexts, steps prove the statements exactly where they are right proofs of them on trees.
pub fn proofs_are_trees()
    ensures { ProvesAreTrees }
{}

/// Without contexts, the value of a theorem by the steps of proofs is its value by the proofs on trees.
pub fn values_are_of_trees()
    ensures { ValuesAreOfTrees }
{}
