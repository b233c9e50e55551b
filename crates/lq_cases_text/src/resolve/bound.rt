// A program with its names bound, as text.
ghost use Rattle.std.specs.Prelude.{◌≡◌, ◌<◌, true, length};
ghost use Rattle.lq_text_resolve.specs.Resolution.Parameters.{have_places};
ghost use Rattle.lq_text_tree.specs.Texts.{program_view};
ghost use Rattle.lq_text_walk.specs.Scoped.Whole.{scoped_view};

use crate::resolve::heads::{word_of_one, word_of_row, word_of_three, word_of_two};
use lq_base_names::{Binder, NameTable, TextKind};
use lq_text_front::trees::parsed_programs_have_places;
use lq_text_lexer::lex;
use lq_text_parser::parse::parse_program;
use lq_text_resolve::resolution::{ResolveError, resolve};
use lq_text_scope::Complaint;
use lq_text_tree::{Expr, Pat, PatNode, Pats, Program};
use lq_text_walk::scoped::Scoped;
use lq_text_walk::walk::{Leaf, Shape, Visit, Walk, shape_of};
use std::alloc::{AllocError, Global};

// A word with a number behind it.
fn put(alloc: Global, out: &mut String, word: &str, number: u32) -> Result<(), AllocError> {
    let text = format!(in alloc; " {word}{number}")?;
    out.push_str(text.as_str())
}

#[cycle(pattern)]
fn put_pattern(alloc: Global, out: &mut String, pattern: &Pat<Binder>) -> Result<(), AllocError> {
    match &pattern.node {
        PatNode::Any => out.push_str(" _"),
        PatNode::Unit => out.push_str(" ()"),
        PatNode::Bind(binder) => put(alloc, out, "x", binder.0),
        PatNode::Tuple(row) => put_row(alloc, out, row),
        PatNode::Build(_, _, row) => put_row(alloc, out, row),
    }
}

#[cycle(pattern)]
fn put_row(alloc: Global, out: &mut String, row: &Pats<Binder>) -> Result<(), AllocError> {
    out.push_str(" [")?;
    for at in 0..row.len() {
        if let Some(pattern) = row.get(at) {
            put_pattern(alloc, out, pattern)?;
        }
    }
    out.push_str(" ]")
}

fn put_leaf(alloc: Global, out: &mut String, leaf: Leaf<Binder>) -> Result<(), AllocError> {
    match leaf {
        Leaf::Use(binder) => put(alloc, out, "use", binder.0),
        Leaf::Whole(_) => out.push_str(" whole"),
        Leaf::Flag(_) => out.push_str(" flag"),
        Leaf::Unit => out.push_str(" unit"),
        Leaf::Qualified(_, _) => out.push_str(" qualified"),
        Leaf::AssertFalse => out.push_str(" fail"),
        Leaf::MapEmpty => out.push_str(" empty"),
    }
}

// A node behind its parts: what it does, and its number.
fn put_node(alloc: Global, out: &mut String, node: &Expr<Binder>) -> Result<(), AllocError> {
    match shape_of(&node.node) {
        Shape::Leaf(leaf) => {
            put_leaf(alloc, out, leaf)?;
            put(alloc, out, "#", node.id)
        }
        Shape::One(head, _) => put_headed(alloc, out, word_of_one(head), node.id),
        Shape::Two(head, _, _) => put_headed(alloc, out, word_of_two(head), node.id),
        Shape::Three(head, _, _, _) => put_headed(alloc, out, word_of_three(head), node.id),
        Shape::Row(head, _) => put_headed(alloc, out, word_of_row(head), node.id),
        Shape::Fun(_, _) => put_headed(alloc, out, "fun", node.id),
        Shape::Let(_, _, _) => put_headed(alloc, out, "let", node.id),
        Shape::LetRec(_, _, _) => put_headed(alloc, out, "letrec", node.id),
        Shape::Match(_, _) => put_headed(alloc, out, "match", node.id),
    }
}

fn put_headed(alloc: Global, out: &mut String, word: &str, id: u32) -> Result<(), AllocError> {
    out.push_str(" ")?;
    out.push_str(word)?;
    put(alloc, out, "#", id)
}

fn put_visit(alloc: Global, out: &mut String, visit: Visit<'_, Binder>) -> Result<(), AllocError> {
    match visit {
        Visit::EnterItem(_) => out.push_str(" item"),
        Visit::Leave(node) => put_node(alloc, out, node),
        Visit::LeaveFunction(function) => put(alloc, out, "function #", function.id),
        Visit::Declare(pattern) => put_pattern(alloc, out, pattern),
        Visit::ShowName(binder) => put(alloc, out, "rec x", binder.0),
        Visit::LeaveItem(_)
        | Visit::Enter(_)
        | Visit::Show(_)
        | Visit::Hide(_)
        | Visit::HideName(_) => Ok(()),
    }
}

// The source names of the binders; a binder that was made has `-`.
fn put_sources(out: &mut String, names: &NameTable, scoped: &Scoped) -> Result<(), AllocError> {
    out.push_str(" |")?;
    for at in 0..scoped.binders() {
        if let Ok(number) = u32::try_from(at) {
            put_source(out, names, scoped, Binder(number))?;
        }
    }
    Ok(())
}

fn put_source(
    out: &mut String,
    names: &NameTable,
    scoped: &Scoped,
    binder: Binder,
) -> Result<(), AllocError>
    requires { binder.0 < length (scoped_view scoped.now).sources }
{
    out.push_str(" ")?;
    match scoped.source_of(binder) {
        Some(name) => {
            if name.0 < names.len() {
                out.push_str(names.text(name))?;
            }
            Ok(())
        }
        None => out.push_str("-"),
    }
}

fn printed(alloc: Global, names: &NameTable, scoped: &Scoped) -> Result<String, AllocError> {
    let mut out = String::new(alloc);
    let mut walk = Walk::of_items(alloc, scoped.items())?;
    for _ in 0..u64::MAX {
        let Some(visit) = walk.next()? else {
            break;
        };
        put_visit(alloc, &mut out, visit)?;
    }
    put_sources(&mut out, names, scoped)?;
    Ok(out)
}

// What is wrong with a name.
fn refused(alloc: Global, complaint: Complaint) -> Result<String, AllocError> {
    let code = complaint.cause.code();
    let line = complaint.place.line;
    let column = complaint.place.column;
    format!(in alloc; " refused {code} at {line}:{column}")
}

fn resolved(alloc: Global, program: &Program, names: &NameTable) -> Result<String, AllocError>
    requires { have_places (program_view program.now) ≡ true }
{
    match resolve(alloc, program, names) {
        Ok(scoped) => printed(alloc, names, &scoped),
        Err(ResolveError::Complaint(complaint)) => refused(alloc, complaint),
        Err(ResolveError::Memory) => Err(AllocError),
    }
}

/// The program with its names bound, what is wrong with them, or a word where the text is none.
pub(crate) fn bound_of(alloc: Global, text: &[u8]) -> Result<String, AllocError> {
    if text.len() > 1000 {
        return String::from_str(alloc, " too long");
    }
    parsed_programs_have_places();
    let Ok(tokens) = lex(alloc, text, TextKind::Program) else {
        return String::from_str(alloc, " no tokens");
    };
    let mut names = NameTable::new(alloc)?;
    match parse_program(alloc, &tokens, text, &mut names) {
        Ok(program) => resolved(alloc, &program, &names),
        Err(_) => String::from_str(alloc, " no program"),
    }
}
