// Laws of the definitions. Nothing is run.
ghost use Rattle.lq_refined_types.specs.Renumbering.Laws.{RenumberedErase, RenumberedKinds, RenumberedByZero, RenumberedTwice};

/// A renumbered type is the same thing in predicates: a number, a truth value, an object, or nothing.
pub fn renumbering_keeps_kinds()
    ensures { RenumberedKinds }
{}

/// A renumbered type has the same simple type.
pub fn renumbering_keeps_simple_types()
    ensures { RenumberedErase }
{}

/// To renumber twice is to renumber once, by the sum.
pub fn renumbering_twice_adds()
    ensures { RenumberedTwice }
{}

/// A type that is renumbered by nothing stays as it is.
pub fn renumbering_by_zero_keeps()
    ensures { RenumberedByZero }
{}
