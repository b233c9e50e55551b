// Laws of the definitions. Nothing is run.
ghost use Rattle.lq_sound_adequacy.specs.Subtypings.Laws.{EnvironmentsDiffer, ImplicationsAreBound, NormalFormsArePosed, ObligationsAreBound};

use lq_refined_rules::checks::simple_types_are_given;
use lq_refined_rules::obligations::{obligations_are_implications, obligations_are_shaped};
use lq_refined_templates::points::templates_are_of_points;
use lq_sound_readiness::reading::what_is_read_is_typed;
use lq_sound_scope::operations::names_are_kept;
use lq_sound_scope::scalars::{definitions_are_nameless, templates_are_written};
use lq_sound_scope::scopes::{
    scopes_are_of_unknowns, templates_are_in_scope, types_over_names_are_over_them,
};
use lq_sound_scope::splits::{hypotheses_are_over, splits_are_bound};

/// Each obligation of a program is in an environment over its own names, and what is asked there speaks of these.
pub fn obligations_are_bound()
    ensures { ObligationsAreBound }
{
    types_over_names_are_over_them();
    names_are_kept();
    simple_types_are_given();
}

/// Each implication of a program speaks of names that its environment binds, and of v.
pub fn implications_are_bound()
    ensures { ImplicationsAreBound }
{
    splits_are_bound();
    hypotheses_are_over();
    obligations_are_bound();
    obligations_are_implications();
    obligations_are_shaped();
}

/// In the environment of each obligation of a program that is ready, and whose binders have twins, no two names are one, and none is a twin.
pub fn environments_differ()
    ensures { EnvironmentsDiffer }
{}

/// What is read of a scalar program in normal form is posed as the laws above ask.
pub fn normal_forms_are_posed()
    ensures { NormalFormsArePosed }
{
    templates_are_in_scope();
    scopes_are_of_unknowns();
    templates_are_of_points();
    what_is_read_is_typed();
    templates_are_written();
    definitions_are_nameless();
}
