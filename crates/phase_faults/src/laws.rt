ghost use Rattle.phase_faults.specs.Laws.{JudgmentsHaveTheirCodes, StatementsHaveTheirCodes};

/// A fault of judgments and rules has one of their codes.
pub fn judgments_have_their_codes()
    ensures { JudgmentsHaveTheirCodes }
{}

/// A fault of statements has one of theirs.
pub fn statements_have_their_codes()
    ensures { StatementsHaveTheirCodes }
{}
