// Tables of types, copied.
ghost use Rattle.std.specs.Prelude.{◌≡◌, ◌<◌, ◌∷◌, ◌++◌, [], All, IfOk, OnOk, length};
ghost use Rattle.lq_types_table.specs.Seen.{node_parts, node_type};
ghost use Rattle.lq_types_table.specs.Whole.{types_of};

use lq_types_table::{TypeHead, TypeNode, TypeTable};
use std::alloc::{AllocError, Global};

// Adds a type over types of the table.
fn push_node(table: &mut TypeTable, node: TypeNode<'_>) -> Result<u32, AllocError>
    requires { All (λ p. p < length (types_of table.old)) (node_parts node) }
    ensures { OnOk result (types_of table.new ≡ types_of table.old ++ node_type (types_of table.old) node.entry ∷ []) }
{
    match node {
        TypeNode::Int => table.push(TypeHead::Int, &[]),
        TypeNode::Bool => table.push(TypeHead::Bool, &[]),
        TypeNode::Unit => table.push(TypeHead::Unit, &[]),
        TypeNode::Var(variable) => table.push_variable(variable),
        TypeNode::Arrow(from, to) => table.push(TypeHead::Arrow, &[from, to]),
        TypeNode::Tuple(parts) => table.push(TypeHead::Tuple, parts),
        TypeNode::Array(element) => table.push(TypeHead::Array, &[element]),
        TypeNode::Named(name, parts) => table.push(TypeHead::Named(name), parts),
        TypeNode::Map(element) => table.push(TypeHead::Map, &[element]),
    }
}

/// The same types under the same numbers.
pub(crate) fn copied(alloc: Global, table: &TypeTable) -> Result<TypeTable, AllocError>
    ensures { IfOk result (λ copy. types_of copy ≡ types_of table.now) }
{
    let mut copy = TypeTable::new(alloc);
    for row in 0..table.len() as u32 {
        let node = table.node(row);
        push_node(&mut copy, node)?;
    }
    Ok(copy)
}
