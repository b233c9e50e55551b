// The reader: a stack of what is still to be read.
ghost use Rattle.std.specs.Prelude.{◌≡◌, ◌↔◌, ◌++◌, ◌<◌, ◌≤◌, ◌+◌, ◌*◌, Option, Some, reverse, length, OnOk, IfOk, IsTrue, Err, ℕ};
ghost use Rattle.lq_text_grammar.specs.Grammar.{start_of};
ghost use Rattle.lq_text_grammar.specs.Reading.{IsText};
ghost use Rattle.lq_text_grammar.specs.Levels.{kind_at, depth, IsShallow, IsSyntax, IsTooDeep};
ghost use Rattle.lq_text_grammar.specs.declared.error.ReadError.TheVariants.{Syntax, TooDeep};

use crate::error::ReadError;
use crate::kind::Kind;
use crate::rule::{EntryPart, ProgramPart, Rule};
use crate::symbol::{Event, Symbol};
use crate::table::{Choice, choose};
use lq_base_names::TextKind;
use std::alloc::{AllocError, Global};

fn start_of(text: TextKind) -> Rule
    ensures { result ≡ start_of text }
{
    match text {
        TextKind::Program => Rule::InProgram(ProgramPart::Program),
        TextKind::Measures => Rule::InEntry(EntryPart::Measures),
        TextKind::Quals => Rule::InEntry(EntryPart::Quals),
    }
}

// Puts the symbols on the stack, the first on top.
fn put(stack: &mut Vec<Symbol>, body: &[Symbol]) -> Result<(), AllocError>
    ensures { OnOk result (reverse stack.new.items ≡ body.now ++ reverse stack.old.items) }
{
    let mut left = body.len();
    while left > 0 {
        left -= 1;
        stack.push(body[left])?;
    }
    Ok(())
}

// How many levels end in these symbols.
fn levels_in(body: &[Symbol]) -> usize
    ensures within { result ≤ length body.now }
    ensures counted { result ≡ depth body.now }
{
    let mut levels = 0;
    for symbol in body {
        if let Symbol::Leave = symbol {
            levels += 1;
        }
    }
    levels
}

fn kind_of_next(kinds: &[Kind], at: usize) -> Option<Kind>
    ensures { result ≡ kind_at kinds.now at }
{
    if at < kinds.len() {
        Some(kinds[at])
    } else {
        None
    }
}

// Whether the next token is of this kind and of a level within the limit.
fn fits(kinds: &[Kind], at: usize, kind: Kind, level: usize, limit: usize) -> bool
    ensures { IsTrue result ↔ (kind_at kinds.now at ≡ Some kind) × (level ≤ limit) }
{
    if at < kinds.len() && level <= limit {
        kinds[at].same(kind)
    } else {
        false
    }
}

// Why no token is taken here: the next one is too deep or a stop, or there is none.
fn refusal(kinds: &[Kind], at: usize, level: usize, limit: usize) -> ReadError
    ensures syntax { (place : ℕ) → result ≡ Syntax place → (place ≡ at)
        × (at < length kinds.now → level ≤ limit) }
    ensures too_deep { (place : ℕ) → result ≡ TooDeep place → (place ≡ at) × (at < length kinds.now)
        × (limit < level) }
{
    if at < kinds.len() && level > limit {
        ReadError::TooDeep(at)
    } else {
        ReadError::Syntax(at)
    }
}

/// The steps of the reading of these tokens as a text, where no level is above the limit.
pub fn read(
    alloc: Global,
    text: TextKind,
    kinds: &[Kind],
    limit: usize,
) -> Result<Vec<Event>, ReadError>
    ensures ok { IfOk result (λ es. IsText (start_of text) kinds.now es.items) }
    ensures shallow { IfOk result (λ es. IsShallow (start_of text) limit kinds.now (length kinds.now)) }
    ensures syntax { (at : ℕ) → result ≡ Err (Syntax at) → IsSyntax (start_of text) limit kinds.now at }
    ensures too_deep { (at : ℕ) → result ≡ Err (TooDeep at) → IsTooDeep (start_of text) limit kinds.now at }
    ensures bounded { IfOk result (λ es. length es.items ≤ 80 * length kinds.now + 43) }
{
    let mut stack = Vec::new(alloc);
    let start = start_of(text);
    stack.push(Symbol::Part(start))?;
    let mut events = Vec::new(alloc);
    let mut at = 0;
    let mut level = 0;
    while let Some(symbol) = stack.pop() {
        match symbol {
            Symbol::Make(action) => events.push(Event::Make(action))?,
            Symbol::Leave => level -= 1,
            Symbol::Word(kind) => {
                if !fits(kinds, at, kind, level, limit) {
                    return Err(refusal(kinds, at, level, limit));
                }
                events.push(Event::Take)?;
                at += 1;
            }
            Symbol::Part(rule) => match choose(rule, kind_of_next(kinds, at)) {
                Choice::Takes(body) => {
                    put(&mut stack, body)?;
                    level += levels_in(body);
                    if level > limit {
                        return Err(ReadError::TooDeep(at));
                    }
                    events.push(Event::Take)?;
                    at += 1;
                }
                Choice::Passes(body) => {
                    put(&mut stack, body)?;
                    level += levels_in(body);
                }
                Choice::Refuses => return Err(refusal(kinds, at, level, limit)),
            },
        }
    }
    if at < kinds.len() {
        return Err(ReadError::Syntax(at));
    }
    Ok(events)
}
