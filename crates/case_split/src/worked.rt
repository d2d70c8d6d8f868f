//! Worked choices. The functions do nothing: their contracts are the facts.

ghost use Rattle.case_split.specs.Worked.{HaveSumRules, EquatesSuccessors, HasSumPremise, HaveTypingPlaces, HasKnownSystem, HasExplicitSystem, HasRaisedPremise, HaveTermPlaces, HasFunctionTerm};

/// For `n1 + n2 = n3` there is one choice for each of the two rules of sums; that of the successor equates `n1` with `s n1'`, `n2` with `n2'` and
/// `n3` with `s n3'`, and its premise is `n1' + n2' = n3'`.
pub fn choices_of_a_sum()
    ensures rules { HaveSumRules }
    ensures equations { EquatesSuccessors }
    ensures premise { HasSumPremise }
{}

/// For `Gamma, x : T1 |- t[x] : T2` the rule of variables has a choice for a known variable and one for `x`, and the rule of functions is raised to
/// `x`.
pub fn choices_of_a_typing()
    ensures places { HaveTypingPlaces }
    ensures known { HasKnownSystem }
    ensures explicit { HasExplicitSystem }
    ensures raised { HasRaisedPremise }
{}

/// For the term `t[x]` there are three productions, a known variable and `x`; the body of a function takes `x` and its own variable.
pub fn choices_of_a_term()
    ensures places { HaveTermPlaces }
    ensures function { HasFunctionTerm }
{}
