//! A worked case, and one that is refused. The function does nothing: its contract is the facts.

ghost use Rattle.coverage_check.specs.Worked.{SuccessorIsMostGeneral, ThirdIsTaken};

/// On `n1 + n2 = n3` the case `n + n2 = n3'` above `s n + n2 = s n3'` is a most general one of the rule for a successor; `n + n2 = n3` above
/// `s n + n2 = s n3` is none, since `n3` is taken.
pub fn cases_of_a_successor()
    ensures most_general { SuccessorIsMostGeneral }
    ensures taken { ThirdIsTaken }
{}
