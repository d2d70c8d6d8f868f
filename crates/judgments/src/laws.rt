ghost use Rattle.judgments.specs.Laws.{ReadingsAreInScope, SignaturesSpellApart};

/// Over a bare theory the one reading of a form is a judgment over its names.
pub fn readings_are_in_scope()
    ensures { ReadingsAreInScope }
{}

/// Over the signature of a file no word is a spelling of two categories.
pub fn signatures_spell_apart()
    ensures { SignaturesSpellApart }
{}
