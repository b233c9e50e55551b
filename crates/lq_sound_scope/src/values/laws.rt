// Laws of texts. Nothing is run.
ghost use Rattle.lq_sound_scope.specs.Values.Laws.{NormalFormsHaveArms, NormalFormsOfValuesAreValues, TextsHaveArms, TypedProgramsAreSettled, TypedTextsAreSettled, TypedTextsHaveArms};

use lq_meaning_normalize::normalize::programs_are_one_pass;
use lq_text_parser::syntax::same_trees;
use lq_types_rules::visits::scoped_items_own_slots;

/// The normal form of a syntactic value is one: it binds pure expressions, functions, tuples and constructors alone.
pub fn normal_forms_of_values_are_values()
    ensures { NormalFormsOfValuesAreValues }
{}

/// In the normal form of a typed program each definition of a name is a value or has a type without variables.
pub fn typed_programs_are_settled()
    ensures { TypedProgramsAreSettled }
{
    normal_forms_of_values_are_values();
    scoped_items_own_slots();
    programs_are_one_pass();
}

/// So it is in that of a typed program of a text.
pub fn typed_texts_are_settled()
    ensures { TypedTextsAreSettled }
{
    typed_programs_are_settled();
}

/// Once the names of a program that a text is are bound, each of its matches has an arm.
pub fn texts_have_arms()
    ensures { TextsHaveArms }
{
    same_trees();
}

/// The normal form of a program whose matches have an arm has such matches.
pub fn normal_forms_have_arms()
    ensures { NormalFormsHaveArms }
{
    programs_are_one_pass();
}

/// Each match in the normal form of a typed program of a text has an arm.
pub fn typed_texts_have_arms()
    ensures { TypedTextsHaveArms }
{
    texts_have_arms();
    normal_forms_have_arms();
}
