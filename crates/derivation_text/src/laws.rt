//! What a source stands for.
ghost use Rattle.derivation_text.specs.Laws.{InputsAreUnique, TextGivesInputs, TextGivesValue, TextsAreUnique, ValidLinesHaveNoFault, ValueIsEmpty};

/// A source is a valid text in one way at most.
pub fn texts_are_unique()
    ensures { TextsAreUnique }
{}

/// A valid text stands for the inputs that its `apply` line gives, and for no other; so a source stands for one list of inputs at most.
pub fn inputs_are_unique()
    ensures of_text { TextGivesInputs }
    ensures of_source { InputsAreUnique }
{}

/// A text that stands for inputs does so over a context value, which is the empty context where no judgment assumes one.
pub fn values_are_given()
    ensures of_text { TextGivesValue }
    ensures without_contexts { ValueIsEmpty }
{}

/// No fault stands at a line of a valid text.
pub fn valid_lines_have_no_fault()
    ensures { ValidLinesHaveNoFault }
{}
