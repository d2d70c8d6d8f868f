//! What holds of inputs that fit: the functions do nothing, since their contracts are the laws.

ghost use Rattle.derivation_check.specs.Laws.{FitsWhereInstantiated};

/// Derivations and terms fit the inputs of a statement exactly where they instantiate it.
pub fn fits_where_instantiated()
    ensures { FitsWhereInstantiated }
{}
