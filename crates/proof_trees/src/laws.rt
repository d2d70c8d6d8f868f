//! What holds of proofs as trees. The functions do nothing: their contracts are the laws.

ghost use mathlib.Core.WellFounded.{WellFounded};
ghost use Rattle.proof_trees.specs.Laws.{AnalysedIsSubject, OrderFalls, WholeStepsAreTrees};
ghost use Rattle.proof_trees.specs.Ranks.{IsLower};

/// Steps that lead from no theorem to the end of one are those of right proofs of the first theorems, as trees, and the steps of right proofs lead so.
pub fn whole_steps_are_trees()
    ensures { WholeStepsAreTrees }
{}

/// What a right block analyses is what its choices ask of a subject.
pub fn analysed_is_subject()
    ensures { AnalysedIsSubject }
{}

/// An ordered call has smaller sizes, or equal ones with the callee earlier.
pub fn order_falls()
    ensures { OrderFalls }
{}

/// Every chain of falling ranks ends.
pub fn ranks_end()
    ensures { WellFounded IsLower }
{}
