ghost use Rattle.std.specs.Prelude.{ℕ, ◌∷◌, []};
ghost use Rattle.rule_schemes.specs.Rules.{IsSystem};
ghost use Rattle.rule_schemes.specs.Derivation.{leaf, Derives};
ghost use Rattle.rule_schemes.specs.Reading.{ReadsTerm};
ghost use Rattle.rule_schemes.specs.Said.{Said, want_term, HasOneReading};
ghost use Rattle.rule_schemes.specs.Sums.{sums, zero_sum, one_sum, wrong_sum};
ghost use Rattle.rule_schemes.specs.Lambda.{typed, identity_typed, x1_has_unit};
ghost use Rattle.rule_schemes.specs.Ambiguous.{plus_a, three, a_tree, sum_tree, nothing};

/// `z + z = z` is derived, and `s z + z = s z` from it, but not `s z + z = s s z`.
pub fn sums_are_derived()
    ensures zero { Derives sums zero_sum }
    ensures one { Derives sums one_sum }
    ensures wrong { Derives sums wrong_sum → ⊥ }
{}

/// The typed lambda calculus is a system. The identity on `unit` is typed over the empty context, and the rule for variables
/// gives the judgment on the first variable at place 0 alone.
pub fn lambda_is_a_system()
    ensures system { IsSystem typed }
    ensures identity { Derives typed identity_typed }
    ensures first { Derives typed (leaf 0 x1_has_unit 0) }
    ensures second { Derives typed (leaf 0 x1_has_unit 1) → ⊥ }
{}

/// Over `e ::= e + e | a` the form `a + a + a` is read in two ways, so it has not one reading.
pub fn sum_of_three_is_ambiguous()
    ensures right { ReadsTerm plus_a [] [] 0 three (sum_tree a_tree (sum_tree a_tree a_tree)) }
    ensures left { ReadsTerm plus_a [] [] 0 three (sum_tree (sum_tree a_tree a_tree) a_tree) }
    ensures not_one { (answer : ℕ × Said) → HasOneReading plus_a [] nothing (want_term 0 ∷ []) three answer → ⊥ }
{}
