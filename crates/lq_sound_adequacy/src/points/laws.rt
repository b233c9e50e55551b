// Laws of the definitions. Nothing is run.
ghost use Rattle.lq_sound_adequacy.specs.Points.Laws.{TemplatesAreSubtypesOfThemselves, TemplatesHaveOwnPlaces};

use crate::reflexivity::subtyping_is_reflexive;

/// No two entries of a matrix in a template have one place, where each datatype lists its constructors once.
pub fn templates_have_own_places()
    ensures { TemplatesHaveOwnPlaces }
{}

/// So each template is a subtype of itself, in every environment and under every assignment.
pub fn templates_are_subtypes_of_themselves()
    ensures { TemplatesAreSubtypesOfThemselves }
{
    templates_have_own_places();
    subtyping_is_reflexive();
}
