// Laws of the definitions. Nothing is run.
ghost use Rattle.lq_sound_scope.specs.Matrices.Laws.{ArgumentsLackFields, MatricesAreSorted, VariablesHaveNoEntries};

use lq_refined_templates::templates::templates_are_of_their_types;

/// Under sorted instances the entries of a matrix speak of `v` and of the fields of their constructor, at their sorts.
pub fn matrices_are_sorted()
    ensures { MatricesAreSorted }
{}

/// Under sorted instances the tops of a datatype's arguments, which are over names that are no positions, don't speak of fields.
pub fn arguments_lack_fields()
    ensures { ArgumentsLackFields }
{}

/// In the matrix of a template an argument that is a type variable has no entry.
pub fn variables_have_no_entries()
    ensures { VariablesHaveNoEntries }
{
    templates_are_of_their_types();
}
