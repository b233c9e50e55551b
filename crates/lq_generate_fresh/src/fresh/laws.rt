// Laws of the definitions. Nothing is run.
ghost use Rattle.lq_generate_fresh.specs.Fresh.Laws.{CellsAreOfShapes, NamedConstructorsDiffer};

/// The cells that `matrix_of` makes are those of a template, where the datatypes are described right.
pub fn cells_are_of_shapes()
    ensures { CellsAreOfShapes }
{}

/// What `Datatypes::new` wants of a program's constructors holds where nothing is wrong with its names.
pub fn constructors_differ()
    ensures { NamedConstructorsDiffer }
{}
