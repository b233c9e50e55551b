// Laws of programs. Nothing is run.
ghost use Rattle.lq_sound_readiness.specs.TypedTexts.Laws.{TextsHaveFlatPatterns, TypedProgramsSuit, TypedTextsSuit};

use crate::normal_texts::parsed_programs_are_written;
use lq_text_parser::syntax::same_trees;

/// Once the names of a program that a text is are bound, parameters are names, `_` or `()`, and the patterns of arms are flat.
pub fn texts_have_flat_patterns()
    ensures { TextsHaveFlatPatterns }
{
    same_trees();
}

/// A program whose trees and patterns are as texts have them suits where it has types: what is indexed is a variable or gets a name.
pub fn typed_programs_suit()
    ensures { TypedProgramsSuit }
{}

/// So a program that a text is suits then, once its names are bound.
pub fn typed_texts_suit()
    ensures { TypedTextsSuit }
{
    parsed_programs_are_written();
    texts_have_flat_patterns();
    typed_programs_suit();
}
