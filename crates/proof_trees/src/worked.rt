//! Worked proofs over sums. The functions do nothing: their contracts are the facts.

ghost use Rattle.proof_trees.specs.Worked.{TwoIsItsSteps, BlockIsItsSteps, HasNumbersWithin, HasNumbersAfter, HasGoalInCase, LacksGoalInCase, LaterCallsEarlier, EarlierCallsLater, TwoIsRight, TwoLeads, TwoHasValue};

/// A whole proof, and a block with its cases, are their steps in order.
pub fn trees_are_steps()
    ensures proof { TwoIsItsSteps }
    ensures block { BlockIsItsSteps }
{}

/// The number of a block comes before those of its cases. Its scope begins after them, where their steps are out of scope.
pub fn numbers_of_a_block()
    ensures within { HasNumbersWithin }
    ensures after { HasNumbersAfter }
{}

/// The goal of a case is that of its block, with the values of the outer names.
pub fn goal_of_a_case()
    ensures has { HasGoalInCase }
    ensures lacks { LacksGoalInCase }
{}

/// Of two theorems of a group the later may call the earlier on its own input, and not the other way round.
pub fn calls_in_a_group()
    ensures later { LaterCallsEarlier }
    ensures earlier { EarlierCallsLater → ⊥ }
{}

/// A proof of two steps by a rule is right, its steps lead through it, and its value is the two nodes.
pub fn proof_of_two_steps()
    ensures right { TwoIsRight }
    ensures leads { TwoLeads }
    ensures value { TwoHasValue }
{}
