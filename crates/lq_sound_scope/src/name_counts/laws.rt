// Laws of normal forms. Nothing is run.
ghost use Rattle.lq_sound_scope.specs.NameCounts.Laws.{NormalFormsBindBelow, ParsedProgramsMakeFew, ShortTextsHaveTwins};

use lq_meaning_normal_form::binders::scoped_bind_once;
use lq_meaning_normal_form::types::{made_names_run, scoped_programs_are_plain};
use lq_meaning_normalize::normalize::programs_are_one_pass;
use lq_sound_readiness::binders::what_is_read_binds_the_same;
use lq_sound_readiness::normal_texts::parsed_programs_are_written;
use lq_sound_readiness::text_programs::noted_texts_are_typed;
use lq_text_front::trees::parsed_programs_are_small;
use lq_text_lexer::few_tokens;
use lq_text_parser::syntax::same_trees;

/// What the normal form of a plain scoped program binds is below the name behind the last made one.
pub fn normal_forms_bind_below()
    ensures { NormalFormsBindBelow }
{
    scoped_bind_once();
    made_names_run();
}

/// A program that a text is has at most 24 binders and made names together for each of the text's tokens, once its names are bound.
pub fn parsed_programs_make_few()
    ensures { ParsedProgramsMakeFew }
{
    same_trees();
    parsed_programs_are_small();
}

/// What is read of the normal form of a typed program of a text of at most `TEXT_LIMIT` bytes binds names below 2^31 alone.
pub fn short_texts_have_twins()
    ensures { ShortTextsHaveTwins }
{
    normal_forms_bind_below();
    parsed_programs_make_few();
    what_is_read_binds_the_same();
    programs_are_one_pass();
    parsed_programs_are_written();
    scoped_programs_are_plain();
    noted_texts_are_typed();
    few_tokens();
}
