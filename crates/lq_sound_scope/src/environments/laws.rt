// Laws of the definitions. Nothing is run.
ghost use Rattle.lq_sound_scope.specs.Environments.Laws.{RecursionsAreOver, TemplatesAreOver};

use crate::operations::names_are_kept;
use crate::scopes::types_over_names_are_over_them;

/// Under sorted instances a template over names is one over each environment that binds these.
pub fn templates_are_over_environments()
    ensures { TemplatesAreOver }
{
    types_over_names_are_over_them();
    names_are_kept();
}

/// So is that of a recursive function, with its argument and its body's type, where it names its argument by the parameter.
pub fn recursions_are_over_environments()
    ensures { RecursionsAreOver }
{
    types_over_names_are_over_them();
    names_are_kept();
}
