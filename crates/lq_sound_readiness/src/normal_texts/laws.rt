// Laws of programs. Nothing is run.
ghost use Rattle.lq_sound_readiness.specs.NormalTexts.Laws.{AnnotatedProgramsHaveTypes, ParsedProgramsAreWritten, TypedProgramsHaveRules, TypedTextsHaveRules};

use lq_text_parser::syntax::same_trees;

/// Once the names of a program that a text is are bound, each chain has a part, and no item defines a datatype.
pub fn parsed_programs_are_written()
    ensures { ParsedProgramsAreWritten }
{
    same_trees();
}

/// A program of which each chain has a part, and which has types, has a rule of the normal form at each node.
pub fn typed_programs_have_rules()
    ensures { TypedProgramsHaveRules }
{}

/// A program whose names are bound has types where an annotation obeys the rules and its datatypes give the signature.
pub fn annotated_programs_have_types()
    ensures { AnnotatedProgramsHaveTypes }
{}

/// So a program that a text is has types then, once its names are bound, and a rule of the normal form at each node.
pub fn typed_texts_have_rules()
    ensures { TypedTextsHaveRules }
{
    parsed_programs_are_written();
    typed_programs_have_rules();
    annotated_programs_have_types();
}
