// What holds of the definitions.
ghost use Rattle.lq_types_rules.specs.Typings.Example.{Examples};
ghost use Rattle.lq_types_rules.specs.Typings.Laws.{FrontItemsAreRules, FrontsAreRules, VisitsAreRules};
ghost use Rattle.lq_types_rules.specs.Typings.OneAnswer.{OneInference};
ghost use Rattle.lq_types_rules.specs.Typings.Places.{IllTypedPlacesAreFirst};
ghost use Rattle.lq_types_rules.specs.Typings.Renaming.{RenamedArePrincipal};

/// Types of a scoped program's nodes and binders obey the rules exactly where each visit obeys its rule, a use of a generalised definition
/// that of a copy.
pub fn visits_are_rules()
    ensures { VisitsAreRules }
{}

/// The same of the first items of a program.
pub fn front_items_are_rules()
    ensures { FrontItemsAreRules }
{}

/// The same of the first items and of the nodes of the next one up to a place.
pub fn fronts_are_rules()
    ensures { FrontsAreRules }
{}

/// Where a front of the visits can't obey their rules and the visits before its last can, this is so item by item: at the first node, or at
/// the first item itself, such that the rules up to it can't hold together.
pub fn ill_typed_places_are_first()
    ensures { IllTypedPlacesAreFirst }
{}

/// A program has at most one answer: one annotation as far as its nodes and binders go, or one cause and place.
pub fn one_inference()
    ensures { OneInference }
{}

/// Where no definition is weak, a principal annotation stays one under other names for the variables of each item.
pub fn renamed_are_principal()
    ensures { RenamedArePrincipal }
{}

/// A program with a definition that is used at two types has its annotation for an answer, and one that calls a variable with itself the
/// place of the call.
pub fn examples()
    ensures { Examples }
{}
