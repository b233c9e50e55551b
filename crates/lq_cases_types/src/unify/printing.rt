// Types as they are printed.
use lq_types_unify::{Arena, Head, Node, Solution};
use std::alloc::{AllocError, Global};
use std::collections::BTreeMap;

// The texts of these parts' types, with this between them.
fn joined(
    alloc: Global,
    parts: &[u32],
    solution: &Solution,
    texts: &BTreeMap<u32, String>,
    between: &str,
) -> Result<String, AllocError> {
    let mut line = String::new(alloc);
    let mut is_first = true;
    for part in parts {
        if !is_first {
            line.push_str(between)?;
        }
        is_first = false;
        line.push_str(text_of(*part, solution, texts))?;
    }
    Ok(line)
}

// The text of a node's class.
fn text_of<'a>(node: u32, solution: &Solution, texts: &'a BTreeMap<u32, String>) -> &'a str {
    let root = match solution.parents.get(node as usize) {
        Some(root) => *root,
        None => node,
    };
    match texts.get(&root) {
        Some(text) => text.as_str(),
        None => "?",
    }
}

fn made_text(
    alloc: Global,
    head: Head,
    parts: &[u32],
    solution: &Solution,
    texts: &BTreeMap<u32, String>,
) -> Result<String, AllocError> {
    let between = match head {
        Head::Arrow => " -> ",
        Head::Tuple => " * ",
        _ => " ",
    };
    let inner = joined(alloc, parts, solution, texts, between)?;
    match head {
        Head::Whole => String::from_str(alloc, "int"),
        Head::Flag => String::from_str(alloc, "bool"),
        Head::Unit => String::from_str(alloc, "unit"),
        Head::Arrow | Head::Tuple => format!(in alloc; "({inner})"),
        Head::Array => format!(in alloc; "[array {inner}]"),
        Head::Map => format!(in alloc; "[map {inner}]"),
        Head::Named(name) => format!(in alloc; "[{name} {inner}]"),
    }
}

// The text of a class by the node that its root keeps, where the classes of its parts have theirs.
fn class_text(
    alloc: Global,
    arena: &Arena,
    root: u32,
    solution: &Solution,
    texts: &BTreeMap<u32, String>,
) -> Result<String, AllocError> {
    let kept = match solution.shapes.get(root as usize) {
        Some(kept) => *kept,
        None => root,
    };
    match arena.nodes.get(kept as usize) {
        Some(Node::Made(head, first, count)) => {
            let first = *first as usize;
            let parts = arena
                .parts
                .get(first..first + *count as usize)
                .unwrap_or(&[]);
            made_text(alloc, *head, parts, solution, texts)
        }
        Some(Node::Open) | None => format!(in alloc; "'{root}"),
    }
}

/// The type of each node, in order. A variable is `'` and the number of the least node of its class.
pub(crate) fn type_texts(
    alloc: Global,
    arena: &Arena,
    solution: &Solution,
) -> Result<String, AllocError> {
    let mut texts = BTreeMap::new(alloc);
    for root in &solution.order {
        let text = class_text(alloc, arena, *root, solution, &texts)?;
        texts.insert(*root, text)?;
    }
    let mut line = String::new(alloc);
    let mut is_first = true;
    for root in &solution.parents {
        if !is_first {
            line.push_str("; ")?;
        }
        is_first = false;
        line.push_str(text_of(*root, solution, &texts))?;
    }
    Ok(line)
}
