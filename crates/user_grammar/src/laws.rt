ghost use Rattle.user_grammar.specs.Laws.{FaultlessFilesHaveASignature, FaultyFilesHaveNoSignature, SignaturesAreUnique};

/// A file stands for one signature at most.
#[tactic(auto, using(crate::proofs::OneSignature::one_signature))]
pub fn signatures_are_unique()
    ensures { SignaturesAreUnique }
{}

/// A file whose grammar has a fault stands for no signature.
pub fn faulty_files_have_no_signature()
    ensures { FaultyFilesHaveNoSignature }
{}

/// A file whose grammar has no fault stands for a signature, in which no word is a spelling of two plain categories or of the
/// variables of two categories.
pub fn faultless_files_have_a_signature()
    ensures { FaultlessFilesHaveASignature }
{}
