// How terms are written.
ghost use Rattle.std.specs.Prelude.{◌≡◌, ◌++◌, codes, OnOk};
ghost use Rattle.std.specs.Fmt.{signed_decimal};
ghost use Rattle.lq_logic_predicates.specs.TermView.{sum_of};
ghost use Rattle.lq_logic_text.specs.Continued.{Continues};
ghost use Rattle.lq_logic_text.specs.Terms.{factor_level, placed, term_level, term_text};
ghost use Rattle.lq_logic_text.specs.Views.{calling_view, IsTold};

use crate::calling::{Calling, push_symbol, text_of};
use itoa::Buffer;
use lq_logic_predicates::Term;
use std::alloc::AllocError;

/// Writes a whole number behind the bytes.
#[tactic(auto, using(crate::specs::Continued::continuing))]
pub fn push_whole(line: &mut Vec<u8>, n: i128) -> Result<(), AllocError>
    ensures written { OnOk result (line.new.items ≡ line.old.items ++ signed_decimal n) }
    ensures begins { Continues line.old.items line.new.items }
{
    let mut number = Buffer::new();
    line.extend_from_slice(number.format(n).as_bytes())?;
    Ok(())
}

fn length_word() -> &'static [u8]
    ensures { result.now ≡ codes "Array.length " }
{
    b"Array.length "
}

// How tightly a term's form binds.
fn level_of(term: &Term) -> u8
    ensures { result ≡ term_level (sum_of term.now) }
{
    match term {
        Term::Add(_, _) | Term::Sub(_, _) => 5,
        Term::Mul(_, _) | Term::Div(_, _) | Term::Mod(_, _) => 6,
        Term::Neg(_) => 7,
        Term::Whole(_) | Term::Var(_) | Term::Length(_) | Term::Measure(_, _) => 8,
    }
}

// The same of a right factor.
fn factor_level(term: &Term) -> u8
    ensures { result ≡ factor_level (sum_of term.now) }
{
    match term {
        Term::Div(_, _) | Term::Mod(_, _) => 5,
        _ => level_of(term),
    }
}

// A term of this level at a place that asks for one.
#[cycle(terms)]
#[tactic(auto, using(crate::specs::Continued::continuing))]
pub(crate) fn push_placed(
    line: &mut Vec<u8>,
    calling: &Calling<'_>,
    asked: u8,
    level: u8,
    term: &Term,
) -> Result<(), AllocError>
    requires { IsTold calling.now }
    ensures written { OnOk result (line.new.items ≡ line.old.items
        ++ placed asked level (term_text (calling_view calling.now) (sum_of term.now))) }
    ensures begins { Continues line.old.items line.new.items }
{
    if level < asked {
        line.extend_from_slice(b"(")?;
        push_term(line, calling, term)?;
        line.extend_from_slice(b")")
    } else {
        push_term(line, calling, term)
    }
}

// At a place that asks for a level.
#[cycle(terms)]
#[tactic(auto, using(crate::specs::Continued::continuing))]
pub(crate) fn push_at(
    line: &mut Vec<u8>,
    calling: &Calling<'_>,
    asked: u8,
    term: &Term,
) -> Result<(), AllocError>
    requires { IsTold calling.now }
    ensures written { OnOk result (line.new.items ≡ line.old.items ++ placed asked (term_level (sum_of term.now))
        (term_text (calling_view calling.now) (sum_of term.now))) }
    ensures begins { Continues line.old.items line.new.items }
{
    push_placed(line, calling, asked, level_of(term), term)
}

/// Writes a term behind the bytes: a blank on each side of an operator, and parentheses where an operator binds less tightly than its place
/// asks for.
#[cycle(terms)]
#[tactic(auto, using(crate::specs::Continued::continuing))]
pub fn push_term(line: &mut Vec<u8>, calling: &Calling<'_>, term: &Term) -> Result<(), AllocError>
    requires { IsTold calling.now }
    ensures written { OnOk result (line.new.items ≡ line.old.items
        ++ term_text (calling_view calling.now) (sum_of term.now)) }
    ensures begins { Continues line.old.items line.new.items }
{
    match term {
        Term::Whole(n) => push_whole(line, *n),
        Term::Var(symbol) => push_symbol(line, calling, *symbol),
        Term::Neg(a) => {
            line.extend_from_slice(b"-")?;
            push_at(line, calling, 7, a)
        }
        Term::Add(a, b) => {
            push_at(line, calling, 5, a)?;
            line.extend_from_slice(b" + ")?;
            push_at(line, calling, 5, b)
        }
        Term::Sub(a, b) => {
            push_at(line, calling, 5, a)?;
            line.extend_from_slice(b" - ")?;
            push_at(line, calling, 6, b)
        }
        Term::Mul(a, b) => {
            push_at(line, calling, 6, a)?;
            line.extend_from_slice(b" * ")?;
            push_placed(line, calling, 6, factor_level(b), b)
        }
        Term::Div(a, b) => {
            push_at(line, calling, 6, a)?;
            line.extend_from_slice(b" / ")?;
            push_at(line, calling, 7, b)
        }
        Term::Mod(a, b) => {
            push_at(line, calling, 6, a)?;
            line.extend_from_slice(b" mod ")?;
            push_at(line, calling, 7, b)
        }
        Term::Length(a) => {
            line.extend_from_slice(length_word())?;
            push_at(line, calling, 8, a)
        }
        Term::Measure(name, a) => {
            line.extend_from_slice(text_of(calling.table, *name).as_bytes())?;
            line.extend_from_slice(b" ")?;
            push_at(line, calling, 8, a)
        }
    }
}
