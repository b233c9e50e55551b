// The rules of whole programs.
ghost use Rattle.std.specs.Prelude.{◌≡◌, ◌<◌, ◌≤◌, ◌^◌, All, IfOk};
ghost use Rattle.lq_base_names.specs.declared.name.Binder.{Binder};
ghost use Rattle.lq_text_tree.specs.Items.{items_view};
ghost use Rattle.lq_text_tree.specs.Types.{Signature};
ghost use Rattle.lq_text_walk.specs.Walk.Pending.{visit_view};
ghost use Rattle.lq_text_walk.specs.Walk.Visits.{visits_of_items};
ghost use Rattle.lq_types_rules.specs.Equations.Adding.{IsSystem, IsLonger, Adds, count_of};
ghost use Rattle.lq_types_rules.specs.Equations.Gathered.{VisitRule, VisitIn, IsGathered};
ghost use Rattle.lq_types_rules.specs.Equations.Templates.{AreWhole, HasSignature};

use crate::equations::system::System;
use crate::equations::template::Constructors;
use lq_text_tree::{Binder, Item};
use lq_text_walk::walk::{Visit, Walk};
use std::alloc::{AllocError, Global};

/// The rules of a program as equations, and how many of them stand for the visits of a walk up to each.
#[derive(Drop)]
pub struct Rules {
    pub system: System,
    pub ends: Vec<usize>,
}

impl System {
    /// The system with the rule of what a walk leaves: a node, a function, or an item.
    pub fn with_visit(
        self,
        alloc: Global,
        constructors: &Constructors,
        nodes: u32,
        visit: Visit<'_, Binder>,
    ) -> Result<System, AllocError>
        requires system { IsSystem self }
        requires whole { AreWhole constructors.now }
        requires within { VisitIn nodes (count_of self) (visit_view Binder (λ b. b.0) visit) }
        ensures grows { IfOk result (λ s. IsLonger self s) }
        ensures rule { IfOk result (λ s. (g : Signature) → HasSignature constructors.now g → Adds self s
            (VisitRule g nodes (visit_view Binder (λ b. b.0) visit.entry))) }
    {
        match visit {
            Visit::Leave(node) => Ok(self.with_node(alloc, constructors, nodes, node)?),
            Visit::LeaveFunction(function) => {
                Ok(self.with_function(alloc, constructors, nodes, function)?)
            }
            Visit::LeaveItem(item) => Ok(self.with_item(nodes, &item.node)?),
            _ => Ok(self),
        }
    }
}

/// The rules of a program whose nodes are numbered below `nodes`, and whose nodes and binders together below `slots`. A variable
/// is used at its binder's type.
pub fn gather(
    alloc: Global,
    constructors: &Constructors,
    nodes: u32,
    slots: usize,
    items: &[Item<Binder>],
) -> Result<Rules, AllocError>
    requires whole { AreWhole constructors.now }
    requires within { All (VisitIn nodes slots) (visits_of_items (items_view Binder (λ b. b.0) items.now)) }
    ensures { IfOk result (λ all. (g : Signature) → HasSignature constructors.now g → IsGathered g nodes slots
        (visits_of_items (items_view Binder (λ b. b.0) items.now)) all.ends.items all.system) }
{
    let mut system = System::new(alloc, slots)?;
    let mut ends = Vec::new(alloc);
    let mut walk = Walk::of_items(alloc, items)?;
    while let Some(visit) = walk.next()? {
        system = system.with_visit(alloc, constructors, nodes, visit)?;
        ends.push(system.equations.len())?;
    }
    Ok(Rules { system, ends })
}
