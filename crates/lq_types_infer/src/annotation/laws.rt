// What holds of solutions.
ghost use Rattle.lq_types_infer.specs.Annotation.Laws.{SolvedIsPrincipal, SolvedVariablesAreApart};
ghost use Rattle.lq_types_infer.specs.Annotation.Naming.{NamedIsInference};
ghost use Rattle.lq_types_infer.specs.Annotation.Seen.{SeenArePrincipal, SeenAreWeak, SeenVariablesAreApart};

use lq_types_rules::typings::{renamed_are_principal, visits_are_rules};
use lq_types_rules::visits::{scoped_items_own_slots, scoped_visits_are_in};

/// The most general solution of a program's equations is a principal annotation.
pub fn solved_is_principal()
    ensures { SolvedIsPrincipal }
{
    visits_are_rules();
    scoped_items_own_slots();
}

/// Where no definition is weak, a variable of the most general solution stands in the types of one item alone.
pub fn solved_variables_are_apart()
    ensures { SolvedVariablesAreApart }
{
    visits_are_rules();
    renamed_are_principal();
    solved_is_principal();
}

/// Types that are the solution's at a program's slots are a principal annotation, where no definition is weak.
pub fn seen_are_principal()
    ensures { SeenArePrincipal }
{
    renamed_are_principal();
    scoped_items_own_slots();
    scoped_visits_are_in();
    solved_is_principal();
}

/// The first definition that is weak by such types is the answer.
pub fn seen_are_weak()
    ensures { SeenAreWeak }
{
    scoped_visits_are_in();
    solved_is_principal();
}

/// Where no definition is weak, a variable of such types stands in those of one item alone.
pub fn seen_variables_are_apart()
    ensures { SeenVariablesAreApart }
{
    scoped_visits_are_in();
    solved_variables_are_apart();
}

/// A principal annotation with names that number the variables of each item is the answer, where no definition is weak and no type too
/// large.
pub fn named_is_inference()
    ensures { NamedIsInference }
{
    renamed_are_principal();
}
