//! What holds of the moves of a unification and of its written run. The functions do nothing: their contracts are the laws.

ghost use Rattle.pattern_unify.specs.CommonLaws.{StartHasCommonInstances, TurnKeepsCommonInstances, TurnKeepsGroundInstances, SolvedIsMostGeneral, MostGeneralIsUpToReach, PatternsAreWithin};
ghost use Rattle.pattern_unify.specs.Laws.{StartIsState, StateGoesOn, TurnKeepsState, TurnFalls, TurnFallsBy, TurnIsFunction, RunEnds, RunIsFunction, WithinOrStuck, StuckSystemIsOne, ClashHasNone};

/// A turn keeps the scopes: its equations have sides of one category, and each metavariable has become a scheme of its category.
pub fn turn_keeps_state()
    ensures { TurnKeepsState }
{}

/// The start of a run is a state: its sides are of one category, the known variables fit, and each metavariable is itself.
pub fn start_is_a_state()
    ensures { StartIsState }
{}

/// A state is solved or stuck, or it has a turn.
pub fn states_go_on()
    ensures { StateGoesOn }
{}

/// At each turn the measure falls.
pub fn measure_falls()
    ensures { TurnFalls }
{}

/// Each turn makes the number of its row smaller, and none that counts before it greater.
pub fn row_lessens_its_number()
    ensures { TurnFallsBy }
{}

/// A turn leads to one state.
pub fn turn_leads_to_one_state()
    ensures { TurnIsFunction }
{}

/// The written run ends, for all equations.
pub fn run_ends()
    ensures { RunEnds }
{}

/// It ends in one way.
pub fn run_has_one_end()
    ensures { RunIsFunction }
{}

/// Equations are within the fragment, or their run ends stuck.
pub fn within_or_stuck()
    ensures { WithinOrStuck }
{}

/// There is one stuck system.
pub fn stuck_system_is_one()
    ensures { StuckSystemIsOne }
{}

/// Where a run has a clash there is no common instance, neither a substitution nor a ground instance.
pub fn clash_has_no_common_instance()
    ensures { ClashHasNone }
{}

/// At the start of a run its common instances are those of the equations.
pub fn start_has_common_instances()
    ensures { StartHasCommonInstances }
{}

/// A turn keeps the common instances that are substitutions.
pub fn turn_keeps_common_instances()
    ensures { TurnKeepsCommonInstances }
{}

/// A turn keeps the common ground instances.
pub fn turn_keeps_ground_instances()
    ensures { TurnKeepsGroundInstances }
{}

/// What a solved run has found is, over the names that are left, a most general common instance.
pub fn solved_is_most_general()
    ensures { SolvedIsMostGeneral }
{}

/// What is most general is so where of the substitutions those alone count that go into scopes whose metavariables have only parameters
/// that their category reaches.
pub fn most_general_is_up_to_reach()
    ensures { MostGeneralIsUpToReach }
{}

/// Equations of patterns are within the fragment: their run does not end stuck.
pub fn patterns_are_within()
    ensures { PatternsAreWithin }
{}
