// Laws of the definition of tokens.
ghost use Rattle.sy_base.specs.TokenLaws.{TokensAreUnique, FaultIsUnique, TokensExcludeFault, TokensOrFault, TokensStandInSource};

/// A source has at most one list of tokens, at most one fault, and not both.
pub fn tokens_are_unique()
    ensures tokens { TokensAreUnique }
    ensures fault { FaultIsUnique }
    ensures apart { TokensExcludeFault }
{}

/// Each source has tokens or a fault.
pub fn tokens_or_fault()
    ensures { TokensOrFault }
{}

/// The tokens of a source stand in it, in order: each text is the source's part at the token's span, of a quoted one
/// without the quotes, and each line is one more than the line feeds before the token.
pub fn tokens_stand_in_source()
    ensures { TokensStandInSource }
{}
