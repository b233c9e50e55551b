// The most general types of a system, and the first equations that no types meet.
ghost use Rattle.std.specs.Prelude.{ℕ, IfOk, IfSome, IfNone};
ghost use Rattle.lq_text_tree.specs.MlType.{MlType};
ghost use Rattle.lq_types_rules.specs.Equations.Adding.{IsSystem};
ghost use Rattle.lq_types_rules.specs.Equations.Solved.{Solves, IsPrincipal, IsFirstFailing, types_in};

use crate::equations::system::System;
use lq_types_unify::{Solution, first_failing, solve};
use std::alloc::{AllocError, Global};

impl System {
    /// The most general types of all nodes, or None where no types meet the equations.
    pub fn solved(&self, alloc: Global) -> Result<Option<Solution>, AllocError>
        requires { IsSystem self.now }
        ensures principal { IfOk result (λ found. IfSome found (λ s. IsPrincipal self.now
            (types_in self.now s))) }
        ensures none { IfOk result (λ found. IfNone found ((types : ℕ → MlType)
            → Solves self.now self.now.equations.items types → ⊥)) }
    {
        match solve(alloc, &self.arena, &self.equations)? {
            Some(found) => Ok(Some(found)),
            None => Ok(None),
        }
    }

    /// How many equations, from the first on, no types meet, where types meet fewer; None where types meet all.
    pub fn failing(&self, alloc: Global) -> Result<Option<usize>, AllocError>
        requires { IsSystem self.now }
        ensures first { IfOk result (λ found. IfSome found (IsFirstFailing self.now)) }
        ensures none { IfOk result (λ found. IfNone found ((types : ℕ → MlType)
            × Solves self.now self.now.equations.items types)) }
    {
        match first_failing(alloc, &self.arena, &self.equations)? {
            Some(count) => Ok(Some(count)),
            None => Ok(None),
        }
    }
}
