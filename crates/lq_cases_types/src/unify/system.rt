// A system of equations as a line of a table says it.
ghost use Rattle.std.specs.Prelude.{◌<◌, length, All, IfOk, IfSome, OnOk};
ghost use Rattle.lq_types_unify.specs.Nodes.{IsArena};
ghost use Rattle.lq_types_unify.specs.Solution.{AreNodes};

use lq_types_unify::{Arena, Equation, Head};
use std::alloc::{AllocError, Global};

/// Nodes, and equations between them.
#[derive(Drop)]
pub(crate) struct System {
    pub(crate) arena: Arena,
    pub(crate) equations: Vec<Equation>,
}

// The number of one of so many nodes.
fn node_of(word: &str, count: usize) -> Option<u32>
    ensures { IfSome result (λ node. node < count) }
{
    let node = word.parse::<u32>().ok()?;
    if (node as usize) < count {
        Some(node)
    } else {
        None
    }
}

// `0=1`: the nodes 0 and 1 are to have one type.
fn equation_of(word: &str, count: usize) -> Option<Equation>
    ensures left { IfSome result (λ e. e.left < count) }
    ensures right { IfSome result (λ e. e.right < count) }
{
    let (left, right) = word.split_once('=')?;
    let left = node_of(left, count)?;
    let right = node_of(right, count)?;
    Some(Equation { left, right })
}

fn head_of(word: &str) -> Option<Head> {
    match word {
        "int" => Some(Head::Whole),
        "bool" => Some(Head::Flag),
        "unit" => Some(Head::Unit),
        "arrow" => Some(Head::Arrow),
        "tuple" => Some(Head::Tuple),
        "array" => Some(Head::Array),
        "map" => Some(Head::Map),
        _ => Some(Head::Named(word.parse::<u32>().ok()?)),
    }
}

// The numbers of nodes in a row.
fn parts_of(alloc: Global, words: &str, count: usize) -> Result<Option<Vec<u32>>, AllocError>
    ensures { IfOk result (λ found. IfSome found (λ parts. All (λ p. p < count) parts.items)) }
{
    let mut parts = Vec::new(alloc);
    for word in words.split_whitespace() {
        let Some(part) = node_of(word, count) else {
            return Ok(None);
        };
        parts.push(part)?;
    }
    Ok(Some(parts))
}

// Adds a node, `?` or a head and its parts. False where the text is none.
fn add_node(alloc: Global, arena: &mut Arena, text: &str) -> Result<bool, AllocError>
    requires { IsArena arena.old }
    ensures { OnOk result (IsArena arena.new) }
{
    let text = text.trim();
    if text == "?" {
        arena.open()?;
        return Ok(true);
    }
    let (word, rest) = text.split_once(' ').unwrap_or((text, ""));
    let Some(head) = head_of(word) else {
        return Ok(false);
    };
    let Some(parts) = parts_of(alloc, rest, arena.nodes.len())? else {
        return Ok(false);
    };
    arena.made(head, &parts)?;
    Ok(true)
}

fn equations_of(
    alloc: Global,
    words: &str,
    count: usize,
) -> Result<Option<Vec<Equation>>, AllocError>
    ensures { IfOk result (λ found. IfSome found (λ equations. AreNodes count equations.items)) }
{
    let mut equations = Vec::new(alloc);
    for word in words.split_whitespace() {
        let Some(equation) = equation_of(word, count) else {
            return Ok(None);
        };
        equations.push(equation)?;
    }
    Ok(Some(equations))
}

/// The system of a line: nodes with `;` between them, `|`, and equations.
pub(crate) fn system_of(alloc: Global, line: &str) -> Result<Option<System>, AllocError>
    ensures arena { IfOk result (λ found. IfSome found (λ s. IsArena s.arena)) }
    ensures nodes { IfOk result (λ found. IfSome found (λ s. AreNodes (length s.arena.nodes.items)
        s.equations.items)) }
{
    let (nodes, equations) = line.split_once('|').unwrap_or((line, ""));
    let mut arena = Arena::new(alloc);
    for node in nodes.split(';') {
        if !add_node(alloc, &mut arena, node)? {
            return Ok(None);
        }
    }
    let Some(equations) = equations_of(alloc, equations, arena.nodes.len())? else {
        return Ok(None);
    };
    Ok(Some(System { arena, equations }))
}
