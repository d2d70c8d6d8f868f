//! What is true of the value of an accepted proof. The functions do nothing: their contracts are the laws.

ghost use Rattle.theorem_runner.specs.Laws.{ValueExists, ValueIsOne, ValueDerives};

/// A theorem has a value on inputs that instantiate it.
pub fn value_exists()
    ensures { ValueExists }
{}

/// It has one value only.
pub fn value_is_one()
    ensures { ValueIsOne }
{}

/// Its value derives the instantiated conclusion.
pub fn value_derives()
    ensures { ValueDerives }
{}
