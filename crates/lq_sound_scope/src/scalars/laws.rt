// Laws of the definitions. Nothing is run.
ghost use Rattle.lq_sound_scope.specs.Scalars.Example.{ExampleIsScalar};
ghost use Rattle.lq_sound_scope.specs.Scalars.GeneralExample.{GeneralExampleIsScalar};
ghost use Rattle.lq_sound_scope.specs.Scalars.ListExample.{ListExampleIsScalar};
ghost use Rattle.lq_sound_scope.specs.Scalars.Laws.{DefinitionsAreNameless, ScalarNormalFormsArePlain, ScalarProgramsArePlain, TemplatesAreWritten};

use crate::environments::recursions_are_over_environments;
use crate::matrices::{arguments_lack_fields, matrices_are_sorted};
use crate::operations::names_are_kept;
use crate::scopes::{
    scopes_are_of_unknowns, templates_are_in_scope, types_over_names_are_over_them,
};
use lq_refined_rules::checks::simple_types_are_given;
use lq_refined_templates::points::templates_are_of_points;
use lq_refined_templates::templates::templates_are_of_their_types;
use lq_sound_readiness::reading::what_is_read_is_typed;

/// What is read of a scalar program has scalar forms, and templates that name arguments of functions that are written there alone.
pub fn templates_are_written()
    ensures { TemplatesAreWritten }
{
    templates_are_of_their_types();
}

/// Where a definition that is read has a template of its own, this names no argument.
pub fn definitions_are_nameless()
    ensures { DefinitionsAreNameless }
{
    templates_are_of_their_types();
}

/// A simply typed program with scalar forms and templates that are written so is plain, where it is ready and in scope, its binders differ,
/// only names that earlier items defined are used at types for variables, and measures are known.
pub fn scalar_programs_are_plain()
    ensures { ScalarProgramsArePlain }
{
    types_over_names_are_over_them();
    names_are_kept();
    recursions_are_over_environments();
    simple_types_are_given();
    matrices_are_sorted();
    arguments_lack_fields();
}

/// So is what is read of a scalar program in normal form that obeys the rules of types, is ready, whose binders differ, and in which only
/// names that earlier items defined are used at types for variables.
pub fn scalar_normal_forms_are_plain()
    ensures { ScalarNormalFormsArePlain }
{
    templates_are_in_scope();
    scopes_are_of_unknowns();
    templates_are_of_points();
    what_is_read_is_typed();
    templates_are_written();
    scalar_programs_are_plain();
}

/// A recursive function that goes along an array, with a use of it in a tuple that is taken apart, is a scalar program.
pub fn an_example_is_scalar()
    ensures { ExampleIsScalar }
{}

/// A recursive function that takes a list apart, with a use of it on `1 :: []`, is a scalar program.
pub fn an_example_with_lists_is_scalar()
    ensures { ListExampleIsScalar }
{}

/// A definition of any type, used at numbers and at truth values, is a scalar program, and the name so used is of an earlier item.
pub fn an_example_with_a_general_name_is_scalar()
    ensures { GeneralExampleIsScalar }
{}
