//! What holds of the order: the functions do nothing, since their contracts are the laws.

ghost use Rattle.induction_order.specs.Sizes.{OrderedCallIsSmaller, BelowIsSized, RenamedPartIsSmaller};
ghost use Rattle.induction_order.specs.Worked.{PredecessorIsLess, BodyIsLess, SuccessorIsUnknown, SharedNameIsUnknown};

/// An ordered call has target sizes that are smaller at the first place where they differ, or the same with the callee earlier in the group.
#[tactic(auto, using(crate::proofs::OrderFacts::ordered_call_is_smaller))]
pub fn ordered_calls_are_smaller()
    ensures { OrderedCallIsSmaller }
{}

/// A part of what has a relation has the relation below it.
#[tactic(auto, using(crate::proofs::OrderFacts::below_is_sized))]
pub fn below_is_true_of_sizes()
    ensures { BelowIsSized }
{}

/// A renamed part has fewer nodes than the whole, under every ground instance.
#[tactic(auto, using(crate::proofs::PartSizes::renamed_part_is_smaller))]
pub fn renamed_parts_are_smaller()
    ensures { RenamedPartIsSmaller }
{}

/// `n` is less than `s n`, and `t[x']` is less than `fn x => t[x]` for the variable `x'` of an explicit entry.
#[tactic(auto, using(crate::proofs::OrderFacts::predecessor_is_less, crate::proofs::OrderFacts::body_is_less))]
pub fn parts_are_less()
    ensures predecessor { PredecessorIsLess }
    ensures body { BodyIsLess }
{}

/// `s n` is not known to be less than `n`, and neither is a part with one variable for two that are bound around it.
#[tactic(auto, using(crate::proofs::WorkedUnknown::successor_is_unknown, crate::proofs::WorkedUnknown::shared_name_is_unknown))]
pub fn others_are_unknown()
    ensures successor { SuccessorIsUnknown }
    ensures shared_name { SharedNameIsUnknown }
{}
