// Laws of the definitions. Nothing is run.
ghost use Rattle.lq_meaning_normalize.specs.MadeNames.Laws.{MadeNamesAreAlone, MadeNamesAreInOrder};

/// The names that the normal form makes behind the binders of a text stand in the list of what its normal form binds in ascending order, and
/// each does; where each binder of the text has a name, they are the made names, and are numbered from the first one on.
pub fn made_names_are_in_order()
    ensures order { MadeNamesAreInOrder }
    ensures alone { MadeNamesAreAlone }
{}
