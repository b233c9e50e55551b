// Laws of the definitions. Nothing is run.
ghost use Rattle.lq_sound_adequacy.specs.Programs.Laws.{DefinitionsAreFixed, NamesAreOfTheirKinds, NormalFormsAreSorted};

use crate::subtypings::normal_forms_are_posed;
use crate::templates::{program_points_are_sorted, templates_are_sorted};
use lq_refined_rules::checks::simple_types_are_given;
use lq_refined_templates::points::templates_are_of_points;

/// Each name of a program in normal form that obeys the rules of types is bound at a type of the kind of its type in the annotation.
pub fn names_are_of_their_kinds()
    ensures { NamesAreOfTheirKinds }
{
    templates_are_of_points();
    simple_types_are_given();
}

/// The type of no definition of a posed program is a type variable.
pub fn definitions_are_fixed()
    ensures { DefinitionsAreFixed }
{}

/// A program in normal form that is posed is sorted by the annotation whose rules it obeys.
pub fn normal_forms_are_sorted()
    ensures { NormalFormsAreSorted }
{
    templates_are_sorted();
    program_points_are_sorted();
    names_are_of_their_kinds();
    definitions_are_fixed();
    normal_forms_are_posed();
}
