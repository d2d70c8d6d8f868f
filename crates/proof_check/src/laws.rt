// The laws of files.
ghost use Rattle.proof_check.specs.Laws.{GrammarsAreFiles};

/// A grammar alone stands for a file: for its signature, no judgments and rules, no statements and no steps.
#[tactic(auto, using(crate::proofs::GrammarFiles::grammars_are_files))]
pub fn grammars_are_files()
    ensures { GrammarsAreFiles }
{}
