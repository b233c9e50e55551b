// Laws of parsed trees. Nothing is run.
ghost use Rattle.lq_text_front.specs.Trees.Laws.{ParsedProgramsHavePlaces, ParsedProgramsAreScoped, ParsedProgramsAreSmall};

use lq_text_lexer::few_tokens;
use lq_text_parser::syntax::same_trees;
use lq_text_resolve::resolution::bound_programs_are_scoped;

/// In a program that a text is, a parameter is a name, `_`, `()` or a tuple, and what an item binds is a name, `_` or `()`.
pub fn parsed_programs_have_places()
    ensures { ParsedProgramsHavePlaces }
{
    same_trees();
}

/// Once the names of a program that a text is are bound, it has at most eight nodes and binders together for each of the text's tokens.
pub fn parsed_programs_are_small()
    ensures { ParsedProgramsAreSmall }
{
    same_trees();
}

/// Where nothing is wrong with the names of a program that a text is, it is scoped once they are bound: nodes and binders are numbered
/// from 0 in their orders, few enough, and each variable is bound.
pub fn parsed_programs_are_scoped()
    ensures { ParsedProgramsAreScoped }
{
    same_trees();
    few_tokens();
    bound_programs_are_scoped();
}
