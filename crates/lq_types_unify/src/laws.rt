// Laws of generalisation: why a definition may be generalised once, before what comes later is known.
ghost use Rattle.lq_types_unify.specs.Later.{UsesAreInstances};
ghost use Rattle.lq_types_unify.specs.Copies.{TypesExtendToCopies};
ghost use Rattle.lq_types_unify.specs.Growing.{KnownClassesGrow};
ghost use Rattle.lq_types_unify.specs.Using.{CopiesAreInstances, CopiesArePublic, TypesExtendToUses};

/// Where later nodes and equations name no variable that was generalised, a copy of the type that a definition had is
/// an instance of the type that it has in the end; the replacing leaves the variables of all else.
pub fn uses_are_instances()
    ensures { UsesAreInstances }
{}

/// Types of a definition's nodes, with other types for variables, are types of the nodes that were copied for a use of
/// it.
pub fn types_extend_to_copies()
    ensures { TypesExtendToCopies }
{}

/// What is known of classes stays known when nodes are added.
pub fn known_classes_grow()
    ensures { KnownClassesGrow }
{}

/// The copy of a definition's type that a solver makes for a use is, in all types of what is known later, the type that the
/// definition had with other types for the variables that were generalised.
pub fn copies_are_instances()
    ensures { CopiesAreInstances }
{}

/// The nodes of a copy name no variable that was generalised but by nodes of the copy.
pub fn copies_are_public()
    ensures { CopiesArePublic }
{}

/// Types of the nodes that there were are types of the copy that a solver makes too, whatever the use has for the variables
/// that were generalised.
pub fn types_extend_to_uses()
    ensures { TypesExtendToUses }
{}
