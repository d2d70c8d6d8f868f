// Laws of the readings of whole forms.
ghost use Rattle.form_readings.specs.Laws.{ContextLaw, WantedLaw};

/// Of two readings of a context one is before the other, or both are at one place and say the same.
pub fn contexts_are_ordered()
    ensures { ContextLaw }
{}

/// Of two readings as what is wanted one is before the other, or both are at one place and write the same.
pub fn readings_of_forms_are_ordered()
    ensures { WantedLaw }
{}
