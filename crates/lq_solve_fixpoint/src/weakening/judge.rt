// Who says which implications are valid.
ghost use Rattle.std.specs.Prelude.{◌≡◌, ◌<◌, ℕ, Bool, List, length, IfOk, IfErr};
ghost use Rattle.lq_refined_types.specs.Parts.Constraint.{Constraint};
ghost use Rattle.lq_logic_predicates.specs.Formula.{Formula};
ghost use Rattle.lq_logic_predicates.specs.declared.pred.Stop.{Stop};
ghost use Rattle.lq_solve_fixpoint.specs.Weakening.Chosen.{AgreeBut, chosen_in};
ghost use Rattle.lq_solve_fixpoint.specs.Weakening.Judging.{FailsThere, HoldsThere, IfFails, IfHolds};

use crate::weakening::chosen::Chosen;
use lq_logic_points::Point;
use lq_logic_predicates::Stop;

/// What an implication that isn't valid gives.
#[derive(Drop)]
pub enum Failure {
    /// Of a demand, a point at which it fails.
    Demand(Point),
    /// Of a flow, the chosen instances of its goal that are refuted at a point at which it fails.
    Flow(Vec<u64>),
}

/// Whether an implication is valid.
#[derive(Drop)]
pub enum Asked {
    Holds,
    Fails(Failure),
}

/// What is asked of implications whose unknowns stand for instances: a prover with what it keeps between questions.
pub trait Judge {
    // the instances of each unknown
    ghost instances: { Self → ℕ → List Formula };

    // the implications
    ghost constraints: { Self → List Constraint };

    // with which stops an implication may be left undecided
    ghost may_stop: { Self → ℕ → Stop → Type 0 };

    // that what is kept between questions is right where these instances are chosen
    ghost keeps: { Self → (ℕ → ℕ → Bool) → Type 0 };

    /// Whether an implication is valid under the chosen instances, for which what is kept is right.
    fn ask(&mut self, at: u64, chosen: &Chosen) -> Result<Asked, Stop>
        requires there { at < length (constraints self.old) }
        requires kept { keeps self.old (chosen_in chosen.now) }
        ensures holds { IfOk result (λ asked. IfHolds asked (HoldsThere (instances self.old)
            (constraints self.old) (chosen_in chosen.now) at)) }
        ensures fails { IfOk result (λ asked. IfFails asked (FailsThere (instances self.old)
            (constraints self.old) (chosen_in chosen.now) at)) }
        ensures stop { IfErr result (may_stop self.old at) }
        ensures kept { keeps self.new (chosen_in chosen.now) }
        ensures instances { instances self.new ≡ instances self.old }
        ensures constraints { constraints self.new ≡ constraints self.old }
        ensures stops { (i : ℕ) (stop : Stop) → may_stop self.new i stop → may_stop self.old i stop };

    /// Forgets what is right for some chosen instances only.
    fn reset(&mut self)
        ensures forgotten { (chosen : ℕ → ℕ → Bool) → keeps self.new chosen }
        ensures instances { instances self.new ≡ instances self.old }
        ensures constraints { constraints self.new ≡ constraints self.old }
        ensures stops { (i : ℕ) (stop : Stop) → may_stop self.new i stop → may_stop self.old i stop };

    /// Instances of an unknown are about to be taken out: forgets what speaks of it.
    fn forget(&mut self, unknown: u64)
        ensures kept { (c d : ℕ → ℕ → Bool) → AgreeBut unknown c d → keeps self.old c → keeps self.new d }
        ensures instances { instances self.new ≡ instances self.old }
        ensures constraints { constraints self.new ≡ constraints self.old }
        ensures stops { (i : ℕ) (stop : Stop) → may_stop self.new i stop → may_stop self.old i stop };
}
