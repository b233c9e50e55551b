// The names that a normal program binds, in the order in which naming binds them. Blocks are gone through by recursion, and pure expressions, which
// bind none, not at all.
ghost use Rattle.std.specs.Prelude.{◌≡◌, ◌++◌, map, IfOk, OnOk};
ghost use Rattle.lq_meaning_normal_tree.specs.BlockView.{binding_view, block_view, branch_view, definition_form_view, definitions_view, operation_node_view, recursive_view};
ghost use Rattle.lq_text_tree.specs.TreeView.{cases_of};
ghost use Rattle.lq_meaning_normalize.specs.MadeNames.Numbers.{binders_view};
ghost use Rattle.lq_meaning_normalize.specs.MadeNames.Order.{names_of, names_of_cases, names_of_form, names_of_item, names_of_items};
ghost use Rattle.lq_meaning_normalize.specs.MadeNames.Parts.{names_of_function, names_of_let, names_of_lets};

use crate::made_names::patterns::push_names;
use lq_base_names::Binder;
use lq_meaning_normal_tree::{
    Binding, Block, Bound, Branch, Definition, DefinitionNode, Operation, OperationNode, Recursive,
};
use std::alloc::{AllocError, Global};

#[cycle(block)]
fn push_block(names: &mut Vec<Binder>, block: &Block) -> Result<(), AllocError>
    ensures { OnOk result (binders_view names.new.items ≡ binders_view names.old.items ++ names_of (block_view block.now)) }
{
    push_bindings(names, &block.bindings)?;
    push_operation(names, &block.last)
}

#[cycle(block)]
fn push_bindings(names: &mut Vec<Binder>, bindings: &[Binding]) -> Result<(), AllocError>
    ensures { OnOk result (binders_view names.new.items ≡ binders_view names.old.items
        ++ names_of_lets (map binding_view bindings.now)) }
{
    for binding in bindings {
        push_binding(names, binding)?;
    }
    Ok(())
}

#[cycle(block)]
fn push_binding(names: &mut Vec<Binder>, binding: &Binding) -> Result<(), AllocError>
    ensures { OnOk result (binders_view names.new.items ≡ binders_view names.old.items ++ names_of_let (binding_view binding.now)) }
{
    match &binding.bound {
        Bound::Value(local, operation) => {
            push_operation(names, operation)?;
            names.push(local.binder)?;
            Ok(())
        }
        Bound::Function(name, function) => {
            names.push(*name)?;
            push_function(names, function)
        }
    }
}

#[cycle(block)]
fn push_function(names: &mut Vec<Binder>, function: &Recursive) -> Result<(), AllocError>
    ensures { OnOk result (binders_view names.new.items ≡ binders_view names.old.items
        ++ names_of_function (recursive_view function.now)) }
{
    names.push(function.parameter.binder)?;
    push_block(names, &function.body)
}

#[cycle(block)]
fn push_operation(names: &mut Vec<Binder>, operation: &Operation) -> Result<(), AllocError>
    ensures { OnOk result (binders_view names.new.items ≡ binders_view names.old.items
        ++ names_of_form (operation_node_view operation.now.node)) }
{
    match &operation.node {
        OperationNode::Fun(parameter, body) => {
            names.push(parameter.binder)?;
            push_block(names, body)
        }
        OperationNode::If(_, then, otherwise) => {
            push_block(names, then)?;
            push_block(names, otherwise)
        }
        OperationNode::Match(_, _, branches) => push_branches(names, branches),
        _ => Ok(()),
    }
}

#[cycle(block)]
fn push_branches(names: &mut Vec<Binder>, branches: &[Branch]) -> Result<(), AllocError>
    ensures { OnOk result (binders_view names.new.items ≡ binders_view names.old.items
        ++ names_of_cases (cases_of (map branch_view branches.now))) }
{
    for branch in branches {
        push_names(names, &branch.pattern)?;
        push_block(names, &branch.body)?;
    }
    Ok(())
}

fn push_definition(names: &mut Vec<Binder>, definition: &Definition) -> Result<(), AllocError>
    ensures { OnOk result (binders_view names.new.items ≡ binders_view names.old.items
        ++ names_of_item (definition_form_view definition.now.node)) }
{
    match &definition.node {
        DefinitionNode::Value(pattern, block) => {
            push_block(names, block)?;
            push_names(names, pattern)
        }
        DefinitionNode::Function(name, function) => {
            names.push(*name)?;
            push_function(names, function)
        }
    }
}

/// The names that a normal program binds.
pub(crate) fn names_of(alloc: Global, definitions: &[Definition]) -> Result<Vec<Binder>, AllocError>
    ensures { IfOk result (λ names. binders_view names.items ≡ names_of_items (definitions_view definitions.now)) }
{
    let mut names = Vec::new(alloc);
    for definition in definitions {
        push_definition(&mut names, definition)?;
    }
    Ok(names)
}
