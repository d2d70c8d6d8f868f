ghost use Rattle.std.specs.Prelude.{◌≡◌};
ghost use Rattle.rule_schemes.specs.Rules.{ENTRIES as entries_limit};

/// The limit on explicit entries of a context: a premise of a rule, and a form of a statement, has no more of them.
pub const ENTRIES: usize = 8;

/// The constant is the limit of which the definitions of rules, statements and proofs speak.
pub fn entries_are_limited()
    ensures { ENTRIES ≡ entries_limit }
{}
