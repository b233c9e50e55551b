// How large the types of a table are, and in which a variable stands.
ghost use Rattle.std.specs.Prelude.{◌≡◌, suc, ◌<◌, ◌-◌, ◌^◌, min, false, List, map, length, All, IfOk, slice_index, slice_index_or};
ghost use Rattle.std.specs.List.{list_any};
ghost use Rattle.lq_text_tree.specs.MlType.{MlType};
ghost use Rattle.lq_types_table.specs.Seen.{node_type};
ghost use Rattle.lq_types_table.specs.Whole.{types_of};
ghost use Rattle.lq_types_rules.specs.Typings.Principal.{counted, is_open};
ghost use Rattle.lq_types_infer.specs.Annotation.Measuring.{total, is_variable};

use lq_types_table::{TypeNode, TypeTable};
use std::alloc::{AllocError, Global};

/// What is told of each type of a table.
#[derive(Drop)]
pub(crate) struct Measures {
    /// How many types stand in it, itself among them, up to 2^64 - 1.
    pub(crate) sizes: Vec<u64>,
    /// Whether a variable stands in it.
    pub(crate) open: Vec<bool>,
}

// How many types stand in one over these parts.
fn size_over(sizes: &[u64], parts: &[u32]) -> u64
    requires { All (λ p. p < length sizes.now) parts.now }
    ensures { result ≡ min (suc (total (λ p. slice_index sizes.now p) parts.now)) (2 ^ 64 - 1) }
{
    let mut size: u64 = 1;
    for part in parts {
        size = size.saturating_add(sizes[*part as usize]);
    }
    size
}

// Whether a variable stands in one of these parts.
fn is_open_over(with_variables: &[bool], parts: &[u32]) -> bool
    requires { All (λ p. p < length with_variables.now) parts.now }
    ensures { result ≡ list_any (λ p. slice_index_or with_variables.now p false) parts.now }
{
    for part in parts {
        if with_variables[*part as usize] {
            return true;
        }
    }
    false
}

fn is_variable(node: TypeNode<'_>) -> bool
    ensures { (all : List MlType) → result ≡ is_variable (node_type all node.entry) }
{
    match node {
        TypeNode::Var(_) => true,
        TypeNode::Int | TypeNode::Bool | TypeNode::Unit => false,
        TypeNode::Arrow(_, _) => false,
        TypeNode::Tuple(_) => false,
        TypeNode::Array(_) => false,
        TypeNode::Named(_, _) => false,
        TypeNode::Map(_) => false,
    }
}

/// The measures of a table's types, of each from those of its parts, which come before it.
pub(crate) fn measure(alloc: Global, table: &TypeTable) -> Result<Measures, AllocError>
    ensures sizes { IfOk result (λ m. m.sizes.items ≡ map counted (types_of table.now)) }
    ensures open { IfOk result (λ m. m.open.items ≡ map is_open (types_of table.now)) }
{
    let mut sizes = Vec::new(alloc);
    let mut open = Vec::new(alloc);
    for row in 0..table.len() as u32 {
        let parts = table.parts(row);
        let size = size_over(&sizes, parts);
        let is_open = is_variable(table.node(row)) || is_open_over(&open, parts);
        sizes.push(size)?;
        open.push(is_open)?;
    }
    Ok(Measures { sizes, open })
}
