// The state of the walk.
ghost use Rattle.std.specs.Prelude.{◌<◌, OnOk};
ghost use Rattle.lq_refined_rules.specs.Checks.Listing.{from};
ghost use Rattle.lq_refined_substitution.specs.Implications.Views.{reason_view};
ghost use Rattle.lq_refined_rules.specs.Obligations.Obligations.{demand, subtyping};
ghost use Rattle.lq_logic_predicates.specs.PredView.{formula_of};
ghost use Rattle.lq_refined_subtyping.specs.Table.Whole.{count_of, refined_at};
ghost use Rattle.lq_generate_operations.specs.Basis.Basis.{scopes_of};
ghost use Rattle.lq_generate_implications.specs.Walk.Asking.{Asks, IsSound};

use crate::obligations::{Asked, Obligation};
use lq_base_names::Place;
use lq_generate_operations::basis::{Basis, Names};
use lq_logic_predicates::Pred;
use lq_refined_substitution::implications::{Implications, Reason};
use lq_refined_subtyping::table::RefinedTypes;
use std::alloc::AllocError;

/// What a walk over a program makes: refined types, environments, the names with their types, and what the program is asked for.
#[derive(Drop)]
pub struct Walk {
    pub types: RefinedTypes,
    pub list: Implications,
    pub names: Names,
    pub asked: Vec<Obligation>,
}

/// An environment, and the type of something in it, by their numbers.
#[derive(Clone, Copy, Debug)]
pub(crate) struct TypeIn {
    pub(crate) env: u64,
    pub(crate) row: usize,
}

impl Walk {
    // A demand in an environment.
    pub(crate) fn demand(
        &mut self,
        basis: &Basis<'_>,
        pred: Pred,
        env: u64,
        place: Place,
        reason: Reason,
    ) -> Result<(), AllocError>
        requires { IsSound basis.now self.old env }
        ensures { OnOk result (Asks basis.now self.old self.new env (λ P Γ. demand P Γ (formula_of pred) (from place (reason_view reason)))) }
    {
        self.asked.push(Obligation {
            env,
            asked: Asked::Holds(pred),
            place,
            reason,
        })?;
        Ok(())
    }

    // The left type is to be a subtype of the right one in an environment.
    pub(crate) fn fits(
        &mut self,
        basis: &Basis<'_>,
        sides: (usize, usize),
        env: u64,
        place: Place,
        reason: Reason,
    ) -> Result<(), AllocError>
        requires sound { IsSound basis.now self.old env }
        requires left { sides.0 < count_of self.old.types }
        requires right { sides.1 < count_of self.old.types }
        ensures { OnOk result (Asks basis.now self.old self.new env (λ P Γ. subtyping P Γ
            (refined_at (scopes_of basis.now) self.old.types sides.0) (refined_at (scopes_of basis.now) self.old.types sides.1)
            (from place (reason_view reason)))) }
    {
        self.asked.push(Obligation {
            env,
            asked: Asked::Fits(sides.0, sides.1),
            place,
            reason,
        })?;
        Ok(())
    }
}
