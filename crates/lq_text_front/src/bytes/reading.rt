// The trees of three texts.
ghost use Rattle.std.specs.Prelude.{◌≡◌, ◌≤◌, ◌+◌, ◌^◌, ℕ, List, Ok, IfOk, IfErr, length};
ghost use Rattle.lq_text_actions.specs.Value as value;
ghost use Rattle.lq_text_lexer.specs.Places.{place_at};
ghost use Rattle.lq_text_lexer.specs.Reading.{IsTokens, end_place_of, tokens_of};
ghost use Rattle.lq_text_lexer.specs.declared.limits.TheConstants.{TEXT_LIMIT};
ghost use Rattle.lq_base_names.specs.declared.place.TextKind.TheVariants as kind;
ghost use Rattle.lq_text_tree.specs.Texts.{measures_view, program_view, quals_view};
ghost use Rattle.lq_text_front.specs.Bytes.Refusals.{fault_refusal, stop_refusal};
ghost use Rattle.lq_text_front.specs.Bytes.Stages.{bytes_of, reading_of, AreRead, IsLexed, ReadsTo};
ghost use Rattle.lq_text_front.specs.Bytes.Views.{IsBy, IsOf};

use crate::bytes::Refusing;
use lq_base_names::{NameTable, TextKind};
use lq_text_lexer::{LexError, Tokens, few_tokens, lex};
use lq_text_parser::parse::{ParseError, parse_measures, parse_program, parse_quals};
use lq_text_refusal::Refused;
use lq_text_tree::{Measures, Program, Quals};
use std::alloc::Global;

/// The trees of three texts, and the table of their names.
#[derive(Drop)]
pub(crate) struct Trees {
    pub(crate) program: Program,
    pub(crate) measures: Measures,
    pub(crate) qualifiers: Quals,
    pub(crate) names: NameTable,
}

fn no_tokens(error: LexError) -> Refusing
    ensures { IsOf (fault_refusal error) result }
{
    match error {
        LexError::BadByte(place) => Refusing::Refused(Refused::At(1, place)),
        LexError::OpenComment(place) => Refusing::Refused(Refused::At(2, place)),
        LexError::LiteralPast(place) => Refusing::Refused(Refused::At(3, place)),
        LexError::Memory => Refusing::Memory,
    }
}

fn no_text(error: ParseError) -> Refusing
    ensures { IsOf (stop_refusal error) result }
{
    match error {
        ParseError::Syntax(place) => Refusing::Refused(Refused::At(4, place)),
        ParseError::TooDeep(place) => Refusing::Refused(Refused::At(5, place)),
        ParseError::Memory => Refusing::Memory,
    }
}

/// The tokens of a text.
fn tokens_in(alloc: Global, text: &[u8], kind: TextKind) -> Result<Tokens, Refusing>
    requires { length text.now ≤ TEXT_LIMIT }
    ensures found { IfOk result (λ t. IsTokens kind text.now (tokens_of t)) }
    ensures few { IfOk result (λ t. length (tokens_of t) ≤ length text.now) }
    ensures end { IfOk result (λ t. end_place_of t ≡ place_at kind text.now (length text.now)) }
    ensures refused { IfErr result (λ e. IsBy (IsLexed kind text.now) e) }
{
    few_tokens();
    match lex(alloc, text, kind) {
        Ok(tokens) => Ok(tokens),
        Err(error) => Err(no_tokens(error)),
    }
}

/// The program that a text is, whose names are added to the table.
fn program_in(alloc: Global, text: &[u8], names: &mut NameTable) -> Result<Program, Refusing>
    requires small { length text.now ≤ TEXT_LIMIT }
    requires room { length names.old ≤ 2 ^ 31 }
    ensures ok { IfOk result (λ p. ReadsTo kind.Program value.items names.old text.now
        (Ok (reading_of (program_view p) names.new))) }
    ensures refused { IfErr result (λ e. IsBy (ReadsTo kind.Program value.items names.old text.now) e) }
    ensures added { length names.new ≤ length names.old + length text.now }
{
    let tokens = tokens_in(alloc, text, TextKind::Program)?;
    match parse_program(alloc, &tokens, text, names) {
        Ok(program) => Ok(program),
        Err(error) => Err(no_text(error)),
    }
}

/// The measures that a text is.
fn measures_in(alloc: Global, text: &[u8], names: &mut NameTable) -> Result<Measures, Refusing>
    requires small { length text.now ≤ TEXT_LIMIT }
    requires room { length names.old ≤ 2 ^ 31 }
    ensures ok { IfOk result (λ m. ReadsTo kind.Measures value.measures names.old text.now
        (Ok (reading_of (measures_view m) names.new))) }
    ensures refused { IfErr result (λ e. IsBy (ReadsTo kind.Measures value.measures names.old text.now) e) }
    ensures added { length names.new ≤ length names.old + length text.now }
{
    let tokens = tokens_in(alloc, text, TextKind::Measures)?;
    match parse_measures(alloc, &tokens, text, names) {
        Ok(measures) => Ok(measures),
        Err(error) => Err(no_text(error)),
    }
}

/// The qualifiers that a text is.
fn qualifiers_in(alloc: Global, text: &[u8], names: &mut NameTable) -> Result<Quals, Refusing>
    requires small { length text.now ≤ TEXT_LIMIT }
    requires room { length names.old ≤ 2 ^ 31 }
    ensures ok { IfOk result (λ q. ReadsTo kind.Quals value.qualifiers names.old text.now
        (Ok (reading_of (quals_view q) names.new))) }
    ensures refused { IfErr result (λ e. IsBy (ReadsTo kind.Quals value.qualifiers names.old text.now) e) }
    ensures added { length names.new ≤ length names.old + length text.now }
{
    let tokens = tokens_in(alloc, text, TextKind::Quals)?;
    match parse_quals(alloc, &tokens, text, names) {
        Ok(qualifiers) => Ok(qualifiers),
        Err(error) => Err(no_text(error)),
    }
}

/// The trees of three texts: the program's faults count before those of the measures, and these before those of the qualifiers.
pub(crate) fn read(
    alloc: Global,
    program: &[u8],
    measures: &[u8],
    qualifiers: &[u8],
) -> Result<Trees, Refusing>
    requires program { length program.now ≤ TEXT_LIMIT }
    requires measures { length measures.now ≤ TEXT_LIMIT }
    requires qualifiers { length qualifiers.now ≤ TEXT_LIMIT }
    ensures ok { IfOk result (λ t. (first second : List (List ℕ))
        × AreRead (bytes_of program.now measures.now qualifiers.now)
        (Ok ((
          (reading_of (program_view t.program) first, reading_of (measures_view t.measures) second),
          reading_of (quals_view t.qualifiers) t.names,
        )))) }
    ensures few { IfOk result (λ t. length t.names ≤ 2 ^ 31) }
    ensures refused { IfErr result (λ e. IsBy (AreRead (bytes_of program.now measures.now qualifiers.now)) e) }
{
    let mut names = NameTable::new(alloc)?;
    let program = program_in(alloc, program, &mut names)?;
    let measures = measures_in(alloc, measures, &mut names)?;
    let qualifiers = qualifiers_in(alloc, qualifiers, &mut names)?;
    Ok(Trees {
        program,
        measures,
        qualifiers,
        names,
    })
}
