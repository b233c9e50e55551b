// Types of a table as text.
use lq_base_names::{Name, NameTable};
use lq_types_table::{TypeNode, TypeTable};
use std::alloc::{AllocError, Global};

// What is still to be written of a type.
#[derive(Clone, Copy)]
enum Piece {
    Text(&'static str),
    Name(Name),
    Type(u32),
    // A type in whose place a function stands in parentheses.
    Operand(u32),
}

pub(crate) fn text_of(names: &NameTable, name: Name) -> &str {
    if name.0 < names.len() {
        names.text(name)
    } else {
        "?"
    }
}

// A letter, and behind `z` a number too.
fn put_variable(alloc: Global, out: &mut String, variable: u32) -> Result<(), AllocError> {
    out.push('\'')?;
    out.push((b'a' + (variable % 26) as u8) as char)?;
    if variable < 26 {
        return Ok(());
    }
    let round = format!(in alloc; "{}", variable / 26)?;
    out.push_str(round.as_str())
}

// The pieces of a type's parts, the last one first, since pieces are taken from the end.
fn push_parts(
    rest: &mut Vec<Piece>,
    parts: &[u32],
    between: &'static str,
) -> Result<(), AllocError> {
    for at in 0..parts.len() {
        if at > 0 {
            rest.push(Piece::Text(between))?;
        }
        rest.push(Piece::Type(parts[parts.len() - 1 - at]))?;
    }
    Ok(())
}

fn push_function(
    rest: &mut Vec<Piece>,
    from: u32,
    to: u32,
    closed: bool,
) -> Result<(), AllocError> {
    if closed {
        rest.push(Piece::Text(")"))?;
    }
    rest.push(Piece::Type(to))?;
    rest.push(Piece::Text(" -> "))?;
    rest.push(Piece::Operand(from))?;
    if closed {
        rest.push(Piece::Text("("))?;
    }
    Ok(())
}

fn push_datatype(rest: &mut Vec<Piece>, name: Name, arguments: &[u32]) -> Result<(), AllocError> {
    rest.push(Piece::Name(name))?;
    match arguments {
        [] => Ok(()),
        [one] => {
            rest.push(Piece::Text(" "))?;
            rest.push(Piece::Operand(*one))?;
            Ok(())
        }
        _ => {
            rest.push(Piece::Text(") "))?;
            push_parts(rest, arguments, ", ")?;
            rest.push(Piece::Text("("))?;
            Ok(())
        }
    }
}

fn push_under(rest: &mut Vec<Piece>, element: u32, name: &'static str) -> Result<(), AllocError> {
    rest.push(Piece::Text(name))?;
    rest.push(Piece::Operand(element))?;
    Ok(())
}

// Writes a type's first piece, or leaves its pieces in its place.
fn put_type(
    alloc: Global,
    out: &mut String,
    rest: &mut Vec<Piece>,
    node: TypeNode<'_>,
    operand: bool,
) -> Result<(), AllocError> {
    match node {
        TypeNode::Int => out.push_str("int"),
        TypeNode::Bool => out.push_str("bool"),
        TypeNode::Unit => out.push_str("unit"),
        TypeNode::Var(variable) => put_variable(alloc, out, variable),
        TypeNode::Arrow(from, to) => push_function(rest, from, to, operand),
        TypeNode::Tuple(parts) => {
            rest.push(Piece::Text(")"))?;
            push_parts(rest, parts, " * ")?;
            rest.push(Piece::Text("("))?;
            Ok(())
        }
        TypeNode::Array(element) => push_under(rest, element, " array"),
        TypeNode::Named(name, arguments) => push_datatype(rest, name, arguments),
        TypeNode::Map(element) => push_under(rest, element, " map"),
    }
}

/// The type in this row of the table.
pub(crate) fn type_text(
    alloc: Global,
    names: &NameTable,
    types: &TypeTable,
    row: u32,
) -> Result<String, AllocError> {
    let mut out = String::new(alloc);
    let mut rest = Vec::new(alloc);
    rest.push(Piece::Type(row))?;
    for _ in 0..u64::MAX {
        let Some(piece) = rest.pop() else {
            break;
        };
        let (row, operand) = match piece {
            Piece::Text(text) => {
                out.push_str(text)?;
                continue;
            }
            Piece::Name(name) => {
                out.push_str(text_of(names, name))?;
                continue;
            }
            Piece::Type(row) => (row, false),
            Piece::Operand(row) => (row, true),
        };
        if (row as usize) < types.len() {
            put_type(alloc, &mut out, &mut rest, types.node(row), operand)?;
        }
    }
    Ok(out)
}
