// The types of a table, one level of each.
ghost use Rattle.std.specs.Prelude.{◌≡◌, List, length};
ghost use Rattle.lq_text_tree.specs.MlType.{MlType};
ghost use Rattle.lq_types_table.specs.Heads.{made, each, IsRight};
ghost use Rattle.lq_types_table.specs.Nodes.{at};
ghost use Rattle.lq_types_table.specs.Seen.{node_type, node_parts};

use lq_base_names::Name;

/// What a type that is no variable is at its top.
#[derive(Clone, Copy, Debug, PartialEq, Eq)]
pub enum TypeHead {
    Int,
    Bool,
    Unit,
    Arrow,
    Tuple,
    Array,
    Map,
    /// A datatype.
    Named(Name),
}

/// A type of a table: its parts are the numbers of types of the table.
#[derive(Clone, Copy)]
pub enum TypeNode<'a> {
    Int,
    Bool,
    Unit,
    Var(u32),
    Arrow(u32, u32),
    Tuple(&'a [u32]),
    Array(u32),
    /// A datatype with its arguments.
    Named(Name, &'a [u32]),
    /// A map from whole numbers.
    Map(u32),
}

/// The type of this head over these parts.
pub(crate) fn node_of(head: TypeHead, parts: &[u32]) -> TypeNode<'_>
    requires { IsRight head (length parts.now) }
    ensures types { (all : List MlType) → node_type all result ≡ made head (each (at all) parts.now) }
    ensures parts { node_parts result ≡ parts.now }
{
    match head {
        TypeHead::Int => TypeNode::Int,
        TypeHead::Bool => TypeNode::Bool,
        TypeHead::Unit => TypeNode::Unit,
        TypeHead::Arrow => TypeNode::Arrow(parts[0], parts[1]),
        TypeHead::Tuple => TypeNode::Tuple(parts),
        TypeHead::Array => TypeNode::Array(parts[0]),
        TypeHead::Map => TypeNode::Map(parts[0]),
        TypeHead::Named(name) => TypeNode::Named(name, parts),
    }
}
