//! Worked calls. The function does nothing: its contract is the facts.

ghost use Rattle.theorem_calls.specs.Worked.{NewNameIsCalled, OneIsTooFew, DerivationForATerm};

/// Over `forall n1 forall n2 exists n1 + n2 = n3` the step `n + n2 = n3` by it on `n`, `n2` is an instance whose `n3` is new; one argument is too few; a
/// derivation for the second term is the second argument, which is no instance.
pub fn calls_over_sums()
    ensures new_name { NewNameIsCalled }
    ensures too_few { OneIsTooFew }
    ensures mismatch { DerivationForATerm }
{}
