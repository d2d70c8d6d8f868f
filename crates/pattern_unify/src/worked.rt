//! Worked systems of equations. The functions do nothing: their contracts say how the written runs end.

ghost use Rattle.pattern_unify.specs.Worked.{SwappedIsMet, SecondIsPruned, FunctionIsBound, EscapingClashes, CircularClashes, NoPatternIsStuck, LaterBindingFrees, NoneIsIdentity};
ghost use Rattle.pattern_unify.specs.Worked.{BothArePruned, FirstIsPrunedFirst, KnownAreJoined, KnownAreToUnify, BothAreStuck, ClashBelowBinders};

/// `t[x, x'] = t[x', x]`: `t` becomes a new name without parameters. Nothing to unify is unified by the identity.
pub fn swapped_patterns_meet()
    ensures swapped { SwappedIsMet }
    ensures none { NoneIsIdentity }
{}

/// `t1[x] = t2[x, x']`: `t2` loses its second parameter, and `t1` is the same. `t1[x, x'] = t2[x', x'']`: each loses the local that the other lacks, `t2`
/// first. `t1 = t2[x] t3[x]`: `t2` is pruned first, since it stands first from the left.
pub fn patterns_are_pruned()
    ensures second { SecondIsPruned }
    ensures both { BothArePruned }
    ensures first_first { FirstIsPrunedFirst }
{}

/// `t1[x, x'] = fn x'' => t2[x'', x]`: `t1` becomes the function. `t1[t2[x]] = x` and `t2[x] = x`: the second equation is bound first, which frees the first.
pub fn patterns_are_bound()
    ensures function { FunctionIsBound }
    ensures freed { LaterBindingFrees }
{}

/// `x' = x` of two known variables, with `x = t1` and `x' = t2`: `x'` is replaced by `x`, and `t1` becomes `t2`.
pub fn known_variables_are_joined()
    ensures to_unify { KnownAreToUnify }
    ensures joined { KnownAreJoined }
{}

/// `t1[t2] = fn x => x` is left, and so is `t3[t2] = fn x => x` behind it.
pub fn what_is_no_pattern_is_left()
    ensures one { NoPatternIsStuck }
    ensures two { BothAreStuck }
{}

/// `t[x] = x'`, `t = fn x => t`, and below binders `t[x'] = fn x'' => x` and `fn x'' => x'' = fn x'' => x` have a clash.
pub fn what_escapes_clashes()
    ensures escaping { EscapingClashes }
    ensures circular { CircularClashes }
    ensures below { ClashBelowBinders }
{}
