// Laws of first readings.
ghost use Rattle.ordered_readings.specs.Laws.{SlotLaw, LengthLaw, EnoughLaw, OrderLaw, RowLaw, BracketLaw, ArgumentLaw};

/// The first two readings of a slot and what stands behind it are the first two of the pairs.
pub fn first_of_slot()
    ensures { SlotLaw }
{}

/// The first two readings for one more length of the slot are the first two of those before and those of that length.
pub fn first_of_lengths()
    ensures { LengthLaw }
{}

/// Two readings where the slot is shorter are enough.
pub fn two_are_enough()
    ensures { EnoughLaw }
{}

/// Of two readings of a form one is before the other, or both are at one place and say the same.
pub fn readings_are_ordered()
    ensures { OrderLaw }
{}

/// Of two readings of a row of items one is before the other, or both are at one place and say the same.
pub fn rows_are_ordered()
    ensures { RowLaw }
{}

/// Of two readings of brackets one is before the other, or both are at one place and say the same.
pub fn brackets_are_ordered()
    ensures { BracketLaw }
{}

/// Of two readings of arguments one is before the other, or both are at one place and say the same.
pub fn arguments_are_ordered()
    ensures { ArgumentLaw }
{}
