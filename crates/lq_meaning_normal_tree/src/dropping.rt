// Blocks are dropped down the first parts of their pure expressions by a loop.
use crate::atom::{Atom, AtomNode};
use crate::block::{Binding, Block, Bound, Branch, Operation, OperationNode, Recursive};
use crate::item::{Definition, DefinitionNode};

// Drops a pure expression: down first parts by a loop, and by itself for the other parts, which nest no deeper than the text.
fn drop_node(mut left: AtomNode) {
    loop {
        match left {
            AtomNode::Neg(a) | AtomNode::Not(a) | AtomNode::Length(a) => {
                left = Box::into_inner(a).node;
            }
            AtomNode::Ring(_, a, b)
            | AtomNode::Compare(_, a, b)
            | AtomNode::And(a, b)
            | AtomNode::Or(a, b) => {
                drop_node(Box::into_inner(b).node);
                left = Box::into_inner(a).node;
            }
            _leaf => return,
        }
    }
}

fn drop_atoms(atoms: Vec<Atom>) {
    for atom in atoms {
        drop_node(atom.node);
    }
}

#[cycle(drop_block)]
fn drop_block(block: Block) {
    let Block { bindings, last } = block;
    for binding in bindings {
        drop_binding(binding);
    }
    drop_operation(last);
}

#[cycle(drop_block)]
fn drop_binding(binding: Binding) {
    match binding.bound {
        Bound::Value(_local, operation) => drop_operation(operation),
        Bound::Function(_f, function) => drop_function(function),
    }
}

#[cycle(drop_block)]
fn drop_function(function: Recursive) {
    drop_block(Box::into_inner(function.body));
}

#[cycle(drop_block)]
fn drop_branches(branches: Vec<Branch>) {
    for branch in branches {
        drop_block(branch.body);
    }
}

#[cycle(drop_block)]
fn drop_operation(operation: Operation) {
    match operation.node {
        OperationNode::Pure(node) => drop_node(node),
        OperationNode::Fun(_local, body) => drop_block(Box::into_inner(body)),
        OperationNode::Tuple(atoms) | OperationNode::Build(_, _, atoms) => drop_atoms(atoms),
        OperationNode::Call(a, b)
        | OperationNode::Divide(_, a, b)
        | OperationNode::Make(a, b)
        | OperationNode::Fetch(a, b)
        | OperationNode::MapFind(a, b) => {
            drop_node(a.node);
            drop_node(b.node);
        }
        OperationNode::If(a, then, otherwise) => {
            drop_node(a.node);
            drop_block(Box::into_inner(then));
            drop_block(Box::into_inner(otherwise));
        }
        OperationNode::Match(_, _, branches) => drop_branches(branches),
        OperationNode::Assert(a) | OperationNode::Print(a) | OperationNode::Read(a) => {
            drop_node(a.node);
        }
        OperationNode::Store(a, b, c) | OperationNode::MapAdd(a, b, c) => {
            drop_node(a.node);
            drop_node(b.node);
            drop_node(c.node);
        }
        OperationNode::AssertFalse | OperationNode::MapEmpty => {}
    }
}

/// Drops definitions. The derived drop of `Atom` calls itself for each level, also down first parts, of which a text can nest more
/// than a stack holds; this goes down first parts by a loop.
pub fn drop_definitions(definitions: Vec<Definition>) {
    for definition in definitions {
        match definition.node {
            DefinitionNode::Value(_pattern, block) => drop_block(block),
            DefinitionNode::Function(_f, function) => drop_function(function),
        }
    }
}
