// Heads of types while they are inferred, and of types of a table.
ghost use Rattle.std.specs.Prelude.{◌≡◌};
ghost use Rattle.lq_types_infer.specs.Solution.Heads.{head_of};

use lq_base_names::Name;
use lq_types_table::TypeHead;
use lq_types_unify::Head;

/// The head of a type of a table.
pub(crate) fn head_of(head: Head) -> TypeHead
    ensures { result ≡ head_of head }
{
    match head {
        Head::Whole => TypeHead::Int,
        Head::Flag => TypeHead::Bool,
        Head::Unit => TypeHead::Unit,
        Head::Arrow => TypeHead::Arrow,
        Head::Tuple => TypeHead::Tuple,
        Head::Array => TypeHead::Array,
        Head::Map => TypeHead::Map,
        Head::Named(name) => TypeHead::Named(Name(name)),
    }
}
