// Types that are made of what is on top of a stack.
ghost use Rattle.std.specs.Prelude.{◌≡◌, IfOk, OnOk, reverse};
ghost use Rattle.lq_text_tree.specs.SimpleTypeView.{simple_type_view, simple_types_items, types_of};
ghost use Rattle.lq_text_tree.specs.Signatures.{type_named};
ghost use Rattle.lq_text_datatypes.specs.Tasks.{top, below, last_types, types_below};
ghost use Rattle.lq_text_datatypes.specs.Views.{stack_view, types_in};

use lq_base_names::Name;
use lq_text_tree::{SimpleType, SimpleTypes};
use std::alloc::{AllocError, Global};

/// The last type.
pub(crate) fn pop_type(types: &mut Vec<SimpleType>) -> SimpleType
    ensures top { simple_type_view result ≡ top (stack_view types.old.items) }
    ensures below { stack_view types.new.items ≡ below (stack_view types.old.items) }
{
    match types.pop() {
        Some(last) => last,
        None => SimpleType::Unit,
    }
}

/// The last types, so many, the last first.
pub(crate) fn pop_types(
    alloc: Global,
    types: &mut Vec<SimpleType>,
    count: usize,
) -> Result<Vec<SimpleType>, AllocError>
    ensures top { IfOk result (λ popped. stack_view popped.items
        ≡ last_types count (stack_view types.old.items)) }
    ensures below { OnOk result (stack_view types.new.items
        ≡ types_below count (stack_view types.old.items)) }
{
    let mut popped = Vec::new(alloc);
    for _ in 0..count {
        popped.push(pop_type(types))?;
    }
    Ok(popped)
}

/// Types as a row, of which the first comes last.
pub(crate) fn row_of(alloc: Global, mut popped: Vec<SimpleType>) -> Result<SimpleTypes, AllocError>
    ensures { IfOk result (λ row. types_in (simple_types_items row) ≡ stack_view popped.items) }
{
    let mut row = SimpleTypes::new(alloc)?;
    while let Some(next) = popped.pop() {
        row.push(next)?;
    }
    Ok(row)
}

/// The type of this name with these arguments, of which the first comes last.
pub(crate) fn named(
    alloc: Global,
    name: Name,
    mut popped: Vec<SimpleType>,
) -> Result<SimpleType, AllocError>
    ensures { IfOk result (λ t. simple_type_view t ≡ type_named name.0 (types_of (stack_view popped.items))) }
{
    if name == Name::INT {
        Ok(SimpleType::Int)
    } else if name == Name::BOOL {
        Ok(SimpleType::Bool)
    } else if name == Name::UNIT {
        Ok(SimpleType::Unit)
    } else if name == Name::ARRAY {
        Ok(SimpleType::Array(Box::new(alloc, pop_type(&mut popped))?))
    } else if name == Name::MAP {
        Ok(SimpleType::Map(Box::new(alloc, pop_type(&mut popped))?))
    } else {
        Ok(SimpleType::Named(name, row_of(alloc, popped)?))
    }
}
