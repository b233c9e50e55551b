// The number past the last variable of each type of a table.
ghost use Rattle.std.specs.Prelude.{◌≡◌, ◌<◌, List, map, length, All, IfOk, slice_index_or};
ghost use Rattle.lq_text_tree.specs.MlType.{MlType};
ghost use Rattle.lq_types_table.specs.Seen.{node_type};
ghost use Rattle.lq_types_table.specs.Whole.{types_of};
ghost use Rattle.lq_types_infer.specs.Annotation.Bounds.{bound_of, own_bound, largest};

use lq_types_table::{TypeNode, TypeTable};
use std::alloc::{AllocError, Global};

// That of a type over these parts.
fn bound_over(bounds: &[u32], parts: &[u32]) -> u32
    requires { All (λ p. p < length bounds.now) parts.now }
    ensures { result ≡ largest (λ p. slice_index_or bounds.now p 0) parts.now }
{
    let mut bound: u32 = 0;
    for part in parts {
        bound = bound.max(bounds[*part as usize]);
    }
    bound
}

// That of a variable. The last variable that has a number has none behind it.
fn own_bound(node: TypeNode<'_>) -> Result<u32, AllocError>
    ensures { IfOk result (λ n. (all : List MlType) → n ≡ own_bound (node_type all node.entry)) }
{
    match node {
        TypeNode::Var(variable) => variable.checked_add(1).ok_or(AllocError),
        TypeNode::Int | TypeNode::Bool | TypeNode::Unit => Ok(0),
        TypeNode::Arrow(_, _) => Ok(0),
        TypeNode::Tuple(_) => Ok(0),
        TypeNode::Array(_) => Ok(0),
        TypeNode::Named(_, _) => Ok(0),
        TypeNode::Map(_) => Ok(0),
    }
}

/// The number past the last variable of each type of a table, from those of its parts, which come
/// before it.
pub(crate) fn bounds_of(alloc: Global, table: &TypeTable) -> Result<Vec<u32>, AllocError>
    ensures { IfOk result (λ bounds. bounds.items ≡ map bound_of (types_of table.now)) }
{
    let mut bounds = Vec::new(alloc);
    for row in 0..table.len() as u32 {
        let own = own_bound(table.node(row))?;
        let inner = bound_over(&bounds, table.parts(row));
        bounds.push(own.max(inner))?;
    }
    Ok(bounds)
}
