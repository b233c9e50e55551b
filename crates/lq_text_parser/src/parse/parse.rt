// The trees of the three texts.
ghost use Rattle.std.specs.Prelude.{◌<◌, ◌≤◌, ◌^◌, length, IfOk};
ghost use Rattle.lq_text_lexer.specs.Reading.{IsTokens, tokens_of};
ghost use Rattle.lq_text_lexer.specs.declared.limits.TheConstants.{TEXT_LIMIT};
ghost use Rattle.lq_base_names.specs.declared.place.TextKind.TheVariants as kind;
ghost use Rattle.lq_text_tree.specs.Texts.{program_view, quals_view, measures_view};
ghost use Rattle.lq_text_actions.specs.Value.{items, qualifiers, measures};
ghost use Rattle.lq_text_actions.specs.Making.{making_view};
ghost use Rattle.lq_text_parser.specs.Parse.Making.{Makes};
ghost use Rattle.lq_text_parser.specs.Parse.Outcome.{IsParseOutcome};
ghost use Rattle.lq_text_parser.specs.Parse.Trees.{IsRead};

use crate::parse::error::ParseError;
use crate::parse::lexemes::lexemes_of;
use crate::parse::steps::steps_of;
use lq_base_names::TextKind;
use lq_text_actions::{
    Builder, MakeError, few_items, pop_items, pop_measures, pop_qualifiers, readings_make_texts,
    run,
};
use lq_text_lexer::Tokens;
use lq_text_tree::{Measures, NameTable, Program, Quals};
use std::alloc::Global;

// What the tokens of this text make. The names in it are added to the table, unless the tokens are refused.
fn built(
    alloc: Global,
    kind: TextKind,
    tokens: &Tokens,
    text: &[u8],
    names: &mut NameTable,
) -> Result<Builder, ParseError>
    requires small { length text.now ≤ TEXT_LIMIT }
    requires tokens { IsTokens kind text.now (tokens_of tokens.now) }
    requires room { length names.old ≤ 2 ^ 31 }
    ensures parsed { IsParseOutcome kind text.now tokens.now names.old names.new
        (λ b. Makes kind text.now names.new (tokens_of tokens.now) (making_view b)) result }
{
    readings_make_texts();
    let _len = names.len(); // what it promises: the table is one
    let events = steps_of(alloc, kind, text, tokens)?;
    let lexemes = lexemes_of(alloc, kind, text, tokens, names)?;
    match run(alloc, &events, &lexemes) {
        Ok(builder) => Ok(builder),
        Err(MakeError::Memory) => Err(ParseError::Memory),
        Err(MakeError::Misfit) => unreachable!(),
    }
}

/// The program that the tokens of this text are. The names in it are added to the table, unless the tokens are refused; where memory runs
/// out some of them may be.
pub fn parse_program(
    alloc: Global,
    tokens: &Tokens,
    text: &[u8],
    names: &mut NameTable,
) -> Result<Program, ParseError>
    requires small { length text.now ≤ TEXT_LIMIT }
    requires tokens { IsTokens kind.Program text.now (tokens_of tokens.now) }
    requires room { length names.old ≤ 2 ^ 31 }
    ensures parsed { IsParseOutcome kind.Program text.now tokens.now names.old names.new
        (λ p. IsRead kind.Program text.now names.new (tokens_of tokens.now) (items (program_view p))) result }
    ensures count { IfOk result (λ p. length (program_view p) < 2 ^ 32) }
{
    readings_make_texts();
    few_items();
    let mut builder = built(alloc, TextKind::Program, tokens, text, names)?;
    match pop_items(&mut builder.values) {
        Ok(row) => Ok(Program::new(row)),
        Err(_) => unreachable!(),
    }
}

/// The qualifiers that the tokens of this text are. The names in them are added to the table, unless the tokens are refused; where memory
/// runs out some of them may be.
pub fn parse_quals(
    alloc: Global,
    tokens: &Tokens,
    text: &[u8],
    names: &mut NameTable,
) -> Result<Quals, ParseError>
    requires small { length text.now ≤ TEXT_LIMIT }
    requires tokens { IsTokens kind.Quals text.now (tokens_of tokens.now) }
    requires room { length names.old ≤ 2 ^ 31 }
    ensures parsed { IsParseOutcome kind.Quals text.now tokens.now names.old names.new
        (λ q. IsRead kind.Quals text.now names.new (tokens_of tokens.now)
        (qualifiers (quals_view q))) result }
{
    readings_make_texts();
    let mut builder = built(alloc, TextKind::Quals, tokens, text, names)?;
    match pop_qualifiers(&mut builder.values) {
        Ok(row) => Ok(Quals::new(row)),
        Err(_) => unreachable!(),
    }
}

/// The measures that the tokens of this text are. The names in them are added to the table, unless the tokens are refused; where memory
/// runs out some of them may be.
pub fn parse_measures(
    alloc: Global,
    tokens: &Tokens,
    text: &[u8],
    names: &mut NameTable,
) -> Result<Measures, ParseError>
    requires small { length text.now ≤ TEXT_LIMIT }
    requires tokens { IsTokens kind.Measures text.now (tokens_of tokens.now) }
    requires room { length names.old ≤ 2 ^ 31 }
    ensures parsed { IsParseOutcome kind.Measures text.now tokens.now names.old names.new
        (λ m. IsRead kind.Measures text.now names.new (tokens_of tokens.now)
        (measures (measures_view m))) result }
{
    readings_make_texts();
    let mut builder = built(alloc, TextKind::Measures, tokens, text, names)?;
    match pop_measures(&mut builder.values) {
        Ok(row) => Ok(Measures::new(row)),
        Err(_) => unreachable!(),
    }
}
