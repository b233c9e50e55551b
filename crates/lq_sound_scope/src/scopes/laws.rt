// Laws of the definitions. Nothing is run.
ghost use Rattle.lq_sound_scope.specs.Scopes.Laws.{ScopesAreOfUnknowns, TemplatesAreInScope, TypesAreOver};

use lq_refined_templates::templates::templates_are_of_their_types;

/// What is read of a program in normal form that obeys the rules of types, and whose uses fit, is in scope over its points.
pub fn templates_are_in_scope()
    ensures { TemplatesAreInScope }
{
    templates_are_of_their_types();
}

/// The scopes of a basis are those of the unknowns of its points.
pub fn scopes_are_of_unknowns()
    ensures { ScopesAreOfUnknowns }
{}

/// Under instances that speak of what their unknowns may speak of, a type over names is over them as soundness asks.
pub fn types_over_names_are_over_them()
    ensures { TypesAreOver }
{}
