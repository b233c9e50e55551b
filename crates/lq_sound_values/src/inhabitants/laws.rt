// Laws of the definitions. Nothing is run.
ghost use Rattle.lq_sound_values.specs.Inhabitants.Datatypes.{DatatypesFit, FieldsKeep};
ghost use Rattle.lq_sound_values.specs.Inhabitants.Laws.{CallsAreEach, ElementsAreEach, ExtendedTables, SlotsAreEach, SmallerNumbers, StoresAgree};

/// What inhabits a type does so at smaller numbers and under tables that extend the table, and a store that agrees with a table at a
/// number does so at smaller ones.
pub fn inhabitants_stay()
    ensures smaller { SmallerNumbers }
    ensures extended { ExtendedTables }
    ensures stores { StoresAgree }
{}

/// What the relation asks below a number, of calls, of an array's slot and of the elements of a store, is what it asks at each number below
/// it.
pub fn numbers_below()
    ensures calls { CallsAreEach }
    ensures slots { SlotsAreEach }
    ensures elements { ElementsAreEach }
{}

/// Where no parameter stands left of an arrow or under `array` in a type definition, what inhabits a datatype inhabits it with greater
/// arguments and an entailed matrix, and what inhabits a field's type inhabits it with greater types for its variables.
pub fn datatypes_fit()
    ensures datatypes { DatatypesFit }
    ensures fields { FieldsKeep }
{}
