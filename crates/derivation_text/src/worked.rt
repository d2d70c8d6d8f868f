ghost use Rattle.rule_schemes.specs.Derivation.{Derives};
ghost use Rattle.rule_schemes.specs.Sums.{sums};
ghost use Rattle.derivation_text.specs.Worked.{two_sum, wrong_two_sum, SumsText, SharedText, NothingText, IdentityText, RootText, FullText, BindersText};

/// Texts of sums: a chain of two steps, two trees with a subtree in common, and none at all.
pub fn sums_are_written()
    ensures chain { SumsText }
    ensures shared { SharedText }
    ensures nothing { NothingText }
{}

/// The chain of two steps that is written above derives `s s z + z = s s z`; with `s s z + z = s z` at its end it is no derivation.
pub fn chain_is_derived()
    ensures chain { Derives sums two_sum }
    ensures wrong { Derives sums wrong_two_sum → ⊥ }
{}

/// Texts over contexts: in full, and from a root on.
pub fn contexts_are_written()
    ensures identity { IdentityText }
    ensures root { RootText }
    ensures full { FullText }
{}

/// A text with binders inside one another.
pub fn binders_are_written()
    ensures { BindersText }
{}
