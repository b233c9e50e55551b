// In which types of a table a variable stands.
ghost use Rattle.std.specs.Prelude.{◌≡◌, ◌<◌, false, List, map, take, length, All, IfOk, slice_index_or};
ghost use Rattle.std.specs.List.{list_any};
ghost use Rattle.lq_text_tree.specs.MlType.{MlType};
ghost use Rattle.lq_types_table.specs.Nodes.{at};
ghost use Rattle.lq_types_table.specs.Seen.{node_type};
ghost use Rattle.lq_types_table.specs.Whole.{types_of};
ghost use Rattle.lq_types_rules.specs.Typings.Principal.{is_open};
ghost use Rattle.lq_types_infer.specs.Annotation.Numbering.{variable_in};

use lq_types_table::{TypeNode, TypeTable};
use std::alloc::{AllocError, Global};

/// The variable that a type is, if it is one.
pub(crate) fn variable_in(node: TypeNode<'_>) -> Option<u32>
    ensures { (all : List MlType) → result ≡ variable_in (node_type all node.entry) }
{
    match node {
        TypeNode::Var(variable) => Some(variable),
        TypeNode::Int | TypeNode::Bool | TypeNode::Unit => None,
        TypeNode::Arrow(_, _) => None,
        TypeNode::Tuple(_) => None,
        TypeNode::Array(_) => None,
        TypeNode::Named(_, _) => None,
        TypeNode::Map(_) => None,
    }
}

// Whether a variable stands in one of these parts.
fn is_open_over(with_variables: &[bool], parts: &[u32]) -> bool
    requires { All (λ p. p < length with_variables.now) parts.now }
    ensures { result ≡ list_any (λ p. slice_index_or with_variables.now p false) parts.now }
{
    for part in parts {
        if with_variables[*part as usize] {
            return true;
        }
    }
    false
}

// Whether a type is a variable, or has one in its parts.
fn is_open_at(table: &TypeTable, with_variables: &[bool], row: u32) -> bool
    requires row { row < length (types_of table.now) }
    requires before { with_variables.now ≡ map is_open (take row (types_of table.now)) }
    ensures { result ≡ is_open (at (types_of table.now) row) }
{
    match variable_in(table.node(row)) {
        Some(_) => true,
        None => is_open_over(with_variables, table.parts(row)),
    }
}

/// In which types of a table a variable stands, of each from its parts, which come before it.
pub(crate) fn opens_of(alloc: Global, table: &TypeTable) -> Result<Vec<bool>, AllocError>
    ensures { IfOk result (λ o. o.items ≡ map is_open (types_of table.now)) }
{
    let mut with_variables = Vec::new(alloc);
    for row in 0..table.len() as u32 {
        let is_open = is_open_at(table, &with_variables, row);
        with_variables.push(is_open)?;
    }
    Ok(with_variables)
}
