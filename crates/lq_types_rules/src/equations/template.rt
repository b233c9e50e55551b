// The constructors of a program.
ghost use Rattle.std.specs.Prelude.{◌≡◌, ℕ, ◌+◌, ◌<◌, ◌≤◌, ◌^◌, length, map, slice_index, option_copied, All, OnOk, IfOk, IfSome, IfNone};
ghost use Rattle.lq_text_tree.specs.MlType.{MlType, MlTypes};
ghost use Rattle.lq_text_tree.specs.Types.{Constructor, Signature, Builds, count_types};
ghost use Rattle.lq_types_unify.specs.Nodes.{form_at, IsArena, HasAdded};
ghost use Rattle.lq_types_rules.specs.Equations.Adding.{IsSystem, IsLonger, Adds, Offers};
ghost use Rattle.lq_types_rules.specs.Equations.Templates.{upto, entry, shifted, IsStore, IsWhole, IsTemplate, AreWhole, HasSignature, Makes, IsCopied};

use crate::equations::system::System;
use lq_text_tree::Name;
use lq_types_unify::{Arena, Head, Node};
use std::alloc::{AllocError, Global};

/// A constructor: the datatype that it makes, how many parameters that has, and its fields' types. Their nodes are copied for
/// each use; those of the parameters come first.
#[derive(Drop)]
pub struct Template {
    pub datatype: u32,
    pub parameters: u32,
    pub types: Arena,
    pub fields: Vec<u32>,
}

/// The constructors of a program, by the numbers of their names.
#[derive(Drop)]
pub struct Constructors {
    pub entries: Vec<Option<Template>>,
}

impl Constructors {
    // What stands under a name.
    pub(crate) fn get(&self, name: Name) -> Option<&Template>
        ensures { option_copied result ≡ entry self.now name.0 }
    {
        match self.entries.get(name.0 as usize) {
            Some(Some(template)) => Some(template),
            _ => None,
        }
    }
}

// So many numbers, from one on.
fn numbers(alloc: Global, first: u32, count: u32) -> Result<Vec<u32>, AllocError>
    requires { first + count < 2 ^ 32 }
    ensures { IfOk result (λ all. all.items ≡ upto first count) }
{
    let mut all = Vec::new(alloc);
    for at in 0..count {
        all.push(first + at)?;
    }
    Ok(all)
}

// The numbers with so much more for each.
fn raised(alloc: Global, numbers: &[u32], by: u32) -> Result<Vec<u32>, AllocError>
    requires { (k : ℕ) → k < length numbers.now → by + slice_index numbers.now k < 2 ^ 32 }
    ensures { IfOk result (λ all. all.items ≡ map (λ p. by + p) numbers.now) }
{
    let mut all = Vec::new(alloc);
    for number in numbers {
        all.push(by + *number)?;
    }
    Ok(all)
}

impl System {
    // A node of a store once more, whose parts are copied already.
    fn copy_node(
        &mut self,
        alloc: Global,
        types: &Arena,
        base: u32,
        at: usize,
    ) -> Result<(), AllocError>
        requires arena { IsArena self.old.arena }
        requires store { IsStore types.now }
        requires inside { at < length types.now.nodes.items }
        requires base { length self.old.arena.nodes.items ≡ base + at }
        ensures added { OnOk result (HasAdded self.old.arena self.new.arena (base + at)
            (shifted base (form_at types.now at))) }
        ensures equations { OnOk result (self.new.equations.items ≡ self.old.equations.items) }
    {
        match types.nodes[at] {
            Node::Open => {
                self.arena.open()?;
            }
            Node::Made(head, first, count) => {
                let from = first as usize;
                let parts = raised(alloc, &types.parts[from..from + count as usize], base)?;
                self.arena.made(head, &parts)?;
            }
        }
        Ok(())
    }

    // The nodes of a store once more, behind those that there are. The first one's number.
    fn copied(&mut self, alloc: Global, types: &Arena) -> Result<u32, AllocError>
        requires system { IsSystem self.old }
        requires store { IsStore types.now }
        ensures { IfOk result (λ base. IsCopied self.old self.new types.now base
            (length types.now.nodes.items)) }
    {
        let base = self.arena.nodes.len() as u32;
        for at in 0..types.nodes.len() {
            self.copy_node(alloc, types, base, at)?;
        }
        Ok(base)
    }

    // One is of the datatype of a constructor. Nodes for its fields.
    fn instance(
        &mut self,
        alloc: Global,
        template: &Template,
        slot: u32,
    ) -> Result<Vec<u32>, AllocError>
        requires system { IsSystem self.old }
        requires whole { IsWhole template.now }
        requires slot { slot < length self.old.arena.nodes.items }
        ensures grows { OnOk result (IsLonger self.old self.new) }
        ensures inside { IfOk result (λ roots. All (λ r. r < length self.new.arena.nodes.items) roots.items) }
        ensures offers { IfOk result (λ roots. (k : Constructor) → IsTemplate template.now k
            → Offers self.old self.new roots.items (λ t ts. Makes k ts (t slot))) }
        ensures count { IfOk result (λ roots. length roots.items ≡ length template.now.fields.items) }
    {
        let base = self.copied(alloc, &template.types)?;
        let parameters = numbers(alloc, base, template.parameters)?;
        self.is(slot, Head::Named(template.datatype), &parameters)?;
        let roots = raised(alloc, &template.fields, base)?;
        Ok(roots)
    }

    // The type of one cannot be.
    pub(crate) fn never(&mut self, slot: u32) -> Result<(), AllocError>
        requires system { IsSystem self.old }
        requires slot { slot < length self.old.arena.nodes.items }
        ensures { OnOk result (Adds self.old self.new (λ t. ⊥)) }
    {
        self.is(slot, Head::Whole, &[])?;
        self.is(slot, Head::Flag, &[])?;
        Ok(())
    }

    // One is of the datatype of the constructor of this name. Nodes for its fields, if it has so many.
    pub(crate) fn built(
        &mut self,
        alloc: Global,
        constructors: &Constructors,
        name: Name,
        slot: u32,
        count: usize,
    ) -> Result<Option<Vec<u32>>, AllocError>
        requires system { IsSystem self.old }
        requires whole { AreWhole constructors.now }
        requires slot { slot < length self.old.arena.nodes.items }
        ensures grows { OnOk result (IsLonger self.old self.new) }
        ensures inside { IfOk result (λ found. IfSome found (λ roots. All (λ r. r < length
            self.new.arena.nodes.items) roots.items)) }
        ensures count { IfOk result (λ found. IfSome found (λ roots. length roots.items ≡ count)) }
        ensures offers { IfOk result (λ found. IfSome found (λ roots. (g : Signature) → HasSignature
            constructors.now g → Offers self.old self.new roots.items
            (λ t ts. Builds g name.0 ts (t slot)))) }
        ensures never { IfOk result (λ found. IfNone found (Adds self.old self.new (λ t. ⊥))) }
        ensures none { IfOk result (λ found. IfNone found ((g : Signature) → HasSignature constructors.now g
            → (ts : MlTypes) (a : MlType) → count_types ts ≡ count → Builds g name.0 ts a → ⊥)) }
    {
        match constructors.get(name) {
            Some(template) if template.fields.len() == count => {
                Ok(Some(self.instance(alloc, template, slot)?))
            }
            _ => {
                self.never(slot)?;
                Ok(None)
            }
        }
    }
}
