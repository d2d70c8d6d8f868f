//! What holds of standings: the functions do nothing, since their contracts are the laws.

ghost use Rattle.proof_kernel.specs.MovesGoOn.{BeginningGoesOn, EndGoesOn, StepGoesOn, SplitGoesOn, CaseGoesOn, CaseEndGoesOn, SplitEndGoesOn};

/// A right beginning or end of a proof and a right step move the standing as it goes on.
#[tactic(auto, using(crate::proofs::GoingOn::beginning_goes_on, crate::proofs::GoingOn::end_goes_on, crate::proofs::GoingOn::step_goes_on))]
pub fn steps_go_on()
    ensures beginning { BeginningGoesOn }
    ensures end { EndGoesOn }
    ensures step { StepGoesOn }
{}

/// A right beginning or end of a block or a case moves the standing as it goes on.
#[tactic(auto, using(crate::proofs::GoingOn::split_goes_on, crate::proofs::GoingOn::case_goes_on, crate::proofs::GoingOn::case_end_goes_on, crate::proofs::GoingOn::split_end_goes_on))]
pub fn blocks_go_on()
    ensures split { SplitGoesOn }
    ensures case { CaseGoesOn }
    ensures case_end { CaseEndGoesOn }
    ensures split_end { SplitEndGoesOn }
{}
