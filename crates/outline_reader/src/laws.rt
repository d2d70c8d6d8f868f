// The laws of outlines.
ghost use Rattle.outline_reader.specs.Laws.{PortionsAreUnique, PortionsAreFilled, TokensAreOutlined, FieldsAreFound};
ghost use Rattle.outline_reader.specs.Laws.{SourceFaultIsUnique, PortionsExcludeFault, PortionsOrFault, FaultIsOfViews, PortionsAreStretches, PortionsHaveWords};

/// A source has portions in one way at most, as plain tokens.
pub fn portions_are_unique()
    ensures { PortionsAreUnique }
{}

/// No portion of an outline lacks a token for one of its fields.
pub fn portions_are_filled()
    ensures { PortionsAreFilled }
{}

/// Where a source has portions, its tokens have an outline.
pub fn tokens_are_outlined()
    ensures { TokensAreOutlined }
{}

/// No field of a portion is its first token for want of another: with another token in its place, the portion is the same but
/// for that token.
pub fn fields_are_found()
    ensures { FieldsAreFound }
{}

/// A source has at most one fault of its tokens or of their outline, and none where it has portions. A fault of an outline does not
/// depend on where the tokens lie.
pub fn source_fault_is_unique()
    ensures unique { SourceFaultIsUnique }
    ensures apart { PortionsExcludeFault }
    ensures views { FaultIsOfViews }
{}

/// A source that is tokens has portions, or a fault of their outline.
pub fn portions_or_fault()
    ensures { PortionsOrFault }
{}

/// The tokens of a source are stretches, one for each of its portions in turn, with nothing between them. Each word, name and form of
/// a portion stands in the portion's stretch, a form in one piece, and a portion but that of a rule begins with the stretch's first token.
/// A category ends where the next one begins: behind its `::=` no name begins a line on which `::=` follows.
pub fn portions_are_stretches()
    ensures { PortionsAreStretches }
{}

/// The names of portions are words that are neither reserved nor numerals. Their forms have tokens, and hold no reserved word outside
/// quotes; nor do productions and lists of terminals.
pub fn portions_have_words()
    ensures { PortionsHaveWords }
{}
