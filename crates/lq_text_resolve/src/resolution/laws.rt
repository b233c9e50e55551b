// What holds of the definitions.
ghost use Rattle.lq_text_resolve.specs.Resolution.Example.{Examples};
ghost use Rattle.lq_text_resolve.specs.Resolution.Laws.{BoundProgramsAreScoped, PrimitivesAgree};
ghost use Rattle.lq_text_resolve.specs.Resolution.Resolution.{OneResolution};
ghost use Rattle.lq_text_resolve.specs.Resolution.Resolves.{MadeResolves, OneTree};

/// What a program becomes once its names are bound, where nothing is wrong with them and its patterns stand where a text can have them:
/// nodes and binders are numbered from 0 in their orders, and each variable is bound.
pub fn bound_programs_are_scoped()
    ensures { BoundProgramsAreScoped }
{}

/// A name is a primitive for what is told of names exactly where it is one for what names are bound to, and as many arguments are wanted
/// as it lacks.
pub fn primitives_agree()
    ensures { PrimitivesAgree }
{}

/// What a program without complaints becomes is what the rules of binding say.
pub fn made_resolves()
    ensures { MadeResolves }
{}

/// By these rules a program becomes at most one list of definitions, but for the numbers of nodes.
pub fn one_tree()
    ensures { OneTree }
{}

/// A program has at most one resolution.
pub fn one_resolution()
    ensures { OneResolution }
{}

/// A small program with what it becomes, which is scoped.
pub fn examples()
    ensures { Examples }
{}
