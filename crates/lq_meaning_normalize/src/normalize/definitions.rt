// Definitions of a program, one after another.
ghost use Rattle.std.specs.Prelude.{◌≡◌, ◌++◌, IfOk, OnOk};
ghost use Rattle.lq_meaning_normal_tree.specs.BlockView.{block_view, definitions_view, recursive_view};
ghost use Rattle.lq_base_names.specs.declared.name.Binder.{Binder};
ghost use Rattle.lq_text_tree.specs.Items.{item_form_view};
ghost use Rattle.lq_text_tree.specs.TreeView.{function_view};
ghost use Rattle.lq_meaning_normalize.specs.Normalize.Program.{formed_body, formed_function, formed_item, next_behind};

use crate::normalize::bodies::{parameter, recursive_of};
use crate::normalize::frames::Label;
use crate::normalize::nested::under;
use crate::normalize::running::block_of;
use crate::pass::Pass;
use lq_base_names::Binder;
use lq_meaning_normal_tree::{Definition, DefinitionNode, Recursive};
use lq_text_tree::{Function, Item, ItemNode};
use std::alloc::{AllocError, Global};

// The definitions so far, and the next made name.
#[derive(Drop)]
pub(crate) struct Definitions {
    pub(crate) alloc: Global,
    pub(crate) next: u32,
    pub(crate) done: Vec<Definition>,
}

// A recursive function, with made names from this one on, and the next one.
fn recursive(
    alloc: Global,
    next: u32,
    function: &Function<Binder>,
) -> Result<(Recursive, u32), AllocError>
    ensures function { IfOk result (λ r. recursive_view r.0 ≡ formed_function next (function_view Binder (λ b. b.0) function.now)) }
    ensures next { IfOk result (λ r. r.1 ≡ (formed_body next (function_view Binder (λ b. b.0) function.now)).next) }
{
    let bindings = Vec::new(alloc);
    let mut pass = Pass {
        alloc,
        next,
        bindings,
    };
    let parameter = parameter(&mut pass, &function.parameter)?;
    let local = parameter.local;
    let (block, next) = block_of(alloc, pass.next, &function.body)?;
    let whole = under(alloc, parameter, block)?;
    let boxed = Box::new(alloc, whole)?;
    let label = Label {
        id: function.id,
        place: function.place,
    };
    Ok((recursive_of(label, local, boxed), next))
}

impl Definitions {
    // One more definition. That of a datatype, which stands in no scoped program, is left out.
    pub(crate) fn add(&mut self, item: &Item<Binder>) -> Result<(), AllocError>
        ensures done { OnOk result (definitions_view self.new.done.items ≡ definitions_view self.old.done.items
            ++ formed_item self.old.next item.now.place (item_form_view Binder (λ b. b.0) item.now.node)) }
        ensures next { OnOk result (self.new.next ≡ next_behind self.old.next (item_form_view Binder (λ b. b.0) item.now.node)) }
    {
        let (node, next) = match &item.node {
            ItemNode::Type(_) => return Ok(()),
            ItemNode::Let(pattern, value) => {
                let (block, next) = block_of(self.alloc, self.next, value)?;
                let pattern = pattern.copy(self.alloc)?;
                (DefinitionNode::Value(pattern, block), next)
            }
            ItemNode::LetRec(name, function) => {
                let (function, next) = recursive(self.alloc, self.next, function)?;
                (DefinitionNode::Function(*name, function), next)
            }
        };
        self.next = next;
        self.done.push(Definition {
            place: item.place,
            node,
        })?;
        Ok(())
    }
}
