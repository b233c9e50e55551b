// Equations that come of rules.
ghost use Rattle.std.specs.Prelude.{◌≡◌, ◌<◌, length, OnOk, IfOk, All};
ghost use Rattle.lq_text_tree.specs.Types.{count_types};
ghost use Rattle.lq_types_rules.specs.Equations.Solutions.{made, each};
ghost use Rattle.lq_types_rules.specs.Equations.Adding.{IsSystem, IsFresh, Adds, Offers, IsRight};

use lq_types_unify::{Arena, Equation, Head};
use std::alloc::{AllocError, Global};

/// Types that aren't known yet, and equations between them. The first are those of the nodes of a program, then come those of
/// its binders; what stands behind them was made for rules.
#[derive(Drop)]
pub struct System {
    pub arena: Arena,
    pub equations: Vec<Equation>,
}

impl System {
    /// So many types of which nothing is known.
    pub fn new(alloc: Global, count: usize) -> Result<System, AllocError>
        ensures { IfOk result (IsFresh count) }
    {
        let mut arena = Arena::new(alloc);
        for _ in 0..count {
            arena.open()?;
        }
        Ok(System {
            arena,
            equations: Vec::new(alloc),
        })
    }

    // Two have one type.
    pub(crate) fn same(&mut self, left: u32, right: u32) -> Result<(), AllocError>
        requires system { IsSystem self.old }
        requires left { left < length self.old.arena.nodes.items }
        requires right { right < length self.old.arena.nodes.items }
        ensures { OnOk result (Adds self.old self.new (λ t. t left ≡ t right)) }
    {
        self.equations.push(Equation { left, right })?;
        Ok(())
    }

    // One has a type of this head over these.
    pub(crate) fn is(&mut self, slot: u32, head: Head, parts: &[u32]) -> Result<(), AllocError>
        requires system { IsSystem self.old }
        requires slot { slot < length self.old.arena.nodes.items }
        requires parts { All (λ p. p < length self.old.arena.nodes.items) parts.now }
        requires count { IsRight head (length parts.now) }
        ensures { OnOk result (Adds self.old self.new (λ t. t slot ≡ made head (each t parts.now))) }
    {
        let node = self.arena.made(head, parts)?;
        self.equations.push(Equation {
            left: slot,
            right: node,
        })?;
        Ok(())
    }

    // So many new ones, whose types may be any.
    pub(crate) fn fresh(&mut self, alloc: Global, count: usize) -> Result<Vec<u32>, AllocError>
        requires { IsSystem self.old }
        ensures offers { IfOk result (λ roots. Offers self.old self.new roots.items (λ t ts.
            count_types ts ≡ count)) }
        ensures count { IfOk result (λ roots. length roots.items ≡ count) }
    {
        let mut roots = Vec::new(alloc);
        for _ in 0..count {
            let node = self.arena.open()?;
            roots.push(node)?;
        }
        Ok(roots)
    }

    // One has a type of this head over so many new ones.
    pub(crate) fn opened(
        &mut self,
        alloc: Global,
        slot: u32,
        head: Head,
        count: usize,
    ) -> Result<Vec<u32>, AllocError>
        requires system { IsSystem self.old }
        requires slot { slot < length self.old.arena.nodes.items }
        requires count { IsRight head count }
        ensures offers { IfOk result (λ roots. Offers self.old self.new roots.items (λ t ts.
            (count_types ts ≡ count) × (t slot ≡ made head ts))) }
        ensures count { IfOk result (λ roots. length roots.items ≡ count) }
    {
        let roots = self.fresh(alloc, count)?;
        self.is(slot, head, &roots)?;
        Ok(roots)
    }
}
