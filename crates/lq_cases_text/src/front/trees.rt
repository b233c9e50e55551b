// Stops, trees and names of texts.
ghost use Rattle.std.specs.Prelude.{◌≤◌, length};
ghost use Rattle.lq_text_lexer.specs.Reading.{IsTokens, tokens_of};
ghost use Rattle.lq_text_lexer.specs.declared.limits.TheConstants.{TEXT_LIMIT};
ghost use Rattle.lq_base_names.specs.declared.place.TextKind.TheVariants as kind;

use crate::front::printer::{Work, print};
use crate::front::tokens::{at_place, fault};
use lq_base_names::{Name, NameTable, TextKind};
use lq_text_lexer::{Tokens, lex};
use lq_text_parser::parse::{ParseError, check_text, parse_measures, parse_program, parse_quals};
use lq_text_tree::{Expr, ItemNode};
use std::alloc::{AllocError, Global};

// Why tokens are no text.
fn refusal(alloc: Global, error: ParseError) -> Result<String, AllocError> {
    match error {
        ParseError::Syntax(place) => at_place(alloc, "stop", place),
        ParseError::TooDeep(place) => at_place(alloc, "too deep", place),
        ParseError::Memory => Err(AllocError),
    }
}

// Whether the text is one of its kind, or where it stops.
pub(crate) fn check(alloc: Global, text: &[u8], kind: TextKind) -> Result<String, AllocError>
    requires { length text.now ≤ TEXT_LIMIT }
{
    let tokens = match lex(alloc, text, kind) {
        Ok(tokens) => tokens,
        Err(error) => return fault(alloc, error),
    };
    match check_text(alloc, kind, text, &tokens) {
        Ok(()) => String::from_str(alloc, "ok"),
        Err(error) => refusal(alloc, error),
    }
}

// The tree of the tokens of a program.
fn program_tree(alloc: Global, tokens: &Tokens, text: &[u8]) -> Result<String, AllocError>
    requires small { length text.now ≤ TEXT_LIMIT }
    requires tokens { IsTokens kind.Program text.now (tokens_of tokens.now) }
{
    let mut names = NameTable::new(alloc)?;
    let read = match parse_program(alloc, tokens, text, &mut names) {
        Ok(read) => read,
        Err(error) => return refusal(alloc, error),
    };
    let mut work = Vec::new(alloc);
    for part in read.items().iter().rev() {
        work.push(Work::Item(part))?;
    }
    print(alloc, &names, work)
}

// The tree of the tokens of qualifiers.
fn qualifiers_tree(alloc: Global, tokens: &Tokens, text: &[u8]) -> Result<String, AllocError>
    requires small { length text.now ≤ TEXT_LIMIT }
    requires tokens { IsTokens kind.Quals text.now (tokens_of tokens.now) }
{
    let mut names = NameTable::new(alloc)?;
    let read = match parse_quals(alloc, tokens, text, &mut names) {
        Ok(read) => read,
        Err(error) => return refusal(alloc, error),
    };
    let mut work = Vec::new(alloc);
    for part in read.qualifiers().iter().rev() {
        work.push(Work::Qualifier(part))?;
    }
    print(alloc, &names, work)
}

// The tree of the tokens of measures.
fn measures_tree(alloc: Global, tokens: &Tokens, text: &[u8]) -> Result<String, AllocError>
    requires small { length text.now ≤ TEXT_LIMIT }
    requires tokens { IsTokens kind.Measures text.now (tokens_of tokens.now) }
{
    let mut names = NameTable::new(alloc)?;
    let read = match parse_measures(alloc, tokens, text, &mut names) {
        Ok(read) => read,
        Err(error) => return refusal(alloc, error),
    };
    let mut work = Vec::new(alloc);
    for part in read.measures().iter().rev() {
        work.push(Work::Measure(part))?;
    }
    print(alloc, &names, work)
}

// The tree of the text.
pub(crate) fn tree_of(alloc: Global, text: &[u8], kind: TextKind) -> Result<String, AllocError>
    requires { length text.now ≤ TEXT_LIMIT }
{
    let tokens = match lex(alloc, text, kind) {
        Ok(tokens) => tokens,
        Err(error) => return fault(alloc, error),
    };
    match kind {
        TextKind::Program => program_tree(alloc, &tokens, text),
        TextKind::Measures => measures_tree(alloc, &tokens, text),
        TextKind::Quals => qualifiers_tree(alloc, &tokens, text),
    }
}

// Puts a copy of what the item defines.
fn put_copy(
    alloc: Global,
    out: &mut String,
    names: &NameTable,
    item: &ItemNode<Name>,
) -> Result<(), AllocError> {
    match item {
        ItemNode::Type(_) => {}
        ItemNode::Let(pattern, tree) => {
            let pattern = pattern.copy(alloc)?;
            let tree = tree.copy(alloc)?;
            let mut work = Vec::new(alloc);
            work.push(Work::Tree(&tree))?;
            work.push(Work::Pattern(&pattern))?;
            out.push_str(&print(alloc, names, work)?)?;
        }
        ItemNode::LetRec(_, function) => {
            let function = function.copy(alloc)?;
            let mut work = Vec::new(alloc);
            work.push(Work::Function(&function))?;
            out.push_str(&print(alloc, names, work)?)?;
        }
    }
    Ok(())
}

// Copies of what the items of a program define.
pub(crate) fn copies_of(alloc: Global, text: &[u8]) -> Result<String, AllocError>
    requires { length text.now ≤ TEXT_LIMIT }
{
    let tokens = match lex(alloc, text, TextKind::Program) {
        Ok(tokens) => tokens,
        Err(error) => return fault(alloc, error),
    };
    let mut names = NameTable::new(alloc)?;
    let read = match parse_program(alloc, &tokens, text, &mut names) {
        Ok(read) => read,
        Err(error) => return refusal(alloc, error),
    };
    let mut out = String::new(alloc);
    for item in read.items() {
        put_copy(alloc, &mut out, &names, &item.node)?;
    }
    Ok(out)
}

// Puts the names that are free in the tree.
fn put_free_names(
    alloc: Global,
    out: &mut String,
    names: &NameTable,
    tree: &Expr<Name>,
) -> Result<(), AllocError> {
    let free = tree.free_names(alloc)?;
    for at in 0..free.len() {
        if let Some(name) = free.get(at) {
            if name.0 < names.len() {
                if !out.is_empty() {
                    out.push_str(" ")?;
                }
                out.push_str(names.text(*name))?;
            }
        }
    }
    Ok(())
}

// The names that are free in the expressions of the program's definitions.
pub(crate) fn free_names_of(alloc: Global, text: &[u8]) -> Result<String, AllocError>
    requires { length text.now ≤ TEXT_LIMIT }
{
    let tokens = match lex(alloc, text, TextKind::Program) {
        Ok(tokens) => tokens,
        Err(error) => return fault(alloc, error),
    };
    let mut names = NameTable::new(alloc)?;
    let read = match parse_program(alloc, &tokens, text, &mut names) {
        Ok(read) => read,
        Err(error) => return refusal(alloc, error),
    };
    let mut out = String::new(alloc);
    for item in read.items() {
        if let ItemNode::Let(_, tree) = &item.node {
            put_free_names(alloc, &mut out, &names, tree)?;
        }
    }
    Ok(out)
}
