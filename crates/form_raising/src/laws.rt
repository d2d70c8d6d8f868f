//! What holds of reach. The function does nothing: its contract is the law.

ghost use Rattle.form_raising.specs.ReachTest.{ReachIsTested};

/// Each signature has a test of reach, so that what holds for every test holds for one.
#[tactic(auto, using(crate::proofs::ReachTests::reach_tests))]
pub fn reach_is_tested()
    ensures { ReachIsTested }
{}
