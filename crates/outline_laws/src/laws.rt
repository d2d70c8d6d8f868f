// The laws on the order of portions.
ghost use Rattle.outline_laws.specs.Nesting.{PortionsAreNested};
ghost use Rattle.outline_laws.specs.Order.{PortionsAreOrdered};
ghost use Rattle.outline_laws.specs.Syntax.{SyntaxHasCategories};

/// Directly behind each word `syntax` comes a category, whose name stands on another line.
pub fn syntax_has_categories()
    ensures { SyntaxHasCategories }
{}

/// A category comes only directly behind the word `syntax` or another category, and a rule only directly behind a judgment or
/// another rule.
pub fn portions_are_ordered()
    ensures { PortionsAreOrdered }
{}

/// The blocks of a source nest. Theorems, and parts of the other kinds, stand where nothing is open. Steps and inversions stand
/// where the innermost open part is a theorem, a lemma or a case, and cases where it is a block. Each `end` line names and ends the
/// innermost open part, a theorem or lemma the one that its header's word names. Behind the last portion nothing is open.
pub fn portions_are_nested()
    ensures { PortionsAreNested }
{}
