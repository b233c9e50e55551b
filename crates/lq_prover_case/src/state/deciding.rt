// What an engine answers, with its evidence.
ghost use Rattle.std.specs.Prelude.{◌≡◌, ◌≢◌, ◌⊎◌, List, IfOk, IfErr, IfSome, IfNone, IsSome};
ghost use Rattle.lq_logic_rows.specs.Answers.{Held, Conflicted, Stopped};
ghost use Rattle.lq_logic_rows.specs.Contradiction.{Solves, IsContradiction};
ghost use Rattle.lq_logic_rows.specs.Row.{Row};
ghost use Rattle.lq_logic_rows.specs.declared.engine.LinearStop.TheVariants.{Memory};
ghost use Rattle.lq_prover_proof_tree.specs.Trees.TreeView.{multiplier_items, multiplier_views};

use lq_logic_rows::{LinearEngine, LinearStop, Verdict};
use lq_prover_proof_tree::trees::Multipliers;
use std::alloc::{AllocError, Global};

/// The multipliers of an engine that found a conflict.
fn multipliers_of<E: LinearEngine>(alloc: Global, engine: &E) -> Result<Multipliers, AllocError>
    requires { E.last engine.now ≡ Conflicted }
    ensures { IfOk result (λ found. multiplier_views (multiplier_items found) ≡ E.multipliers engine.now) }
{
    let mut found = Multipliers::new(alloc)?;
    while let Some(pair) = engine.multiplier(found.len()) {
        found.push(pair)?;
    }
    Ok(found)
}

/// The multipliers of a conflict of the rows that stand, or None where the engine has values that solve them.
fn answer<E: LinearEngine>(alloc: Global, engine: &mut E) -> Result<Option<Multipliers>, LinearStop>
    requires { E.last engine.old ≢ Stopped }
    ensures known { E.known engine.old → IfOk result IsSome }
    ensures some { IfOk result (λ found. IfSome found (λ ms. IsContradiction (E.standing engine.new)
        (multiplier_views (multiplier_items ms)))) }
    ensures none { IfOk result (λ found. IfNone found ((E.last engine.new ≡ Held)
        × Solves (E.point engine.new) (E.standing engine.new))) }
    ensures going { IfOk result (λ _. E.last engine.new ≢ Stopped) }
    ensures stands { E.standing engine.new ≡ E.standing engine.old }
    ensures limits { E.limits engine.new ≡ E.limits engine.old }
    ensures stop { IfErr result (λ stop. (stop ≡ Memory) ⊎ ((rows : List Row) → E.handed engine.old rows
        → E.may_stop (E.limits engine.old) (E.standing engine.old) rows stop)) }
    ensures handed { (rows : List Row) → E.handed engine.old rows → E.handed engine.new rows }
{
    match engine.check()? {
        Verdict::Holds => Ok(None),
        Verdict::Conflict => match multipliers_of(alloc, engine) {
            Ok(found) => Ok(Some(found)),
            Err(AllocError) => Err(LinearStop::Memory),
        },
    }
}

/// The same, and the engine goes on after a stop.
pub(crate) fn decide<E: LinearEngine>(
    alloc: Global,
    engine: &mut E,
) -> Result<Option<Multipliers>, LinearStop>
    requires { E.last engine.old ≢ Stopped }
    ensures known { E.known engine.old → IfOk result IsSome }
    ensures some { IfOk result (λ found. IfSome found (λ ms. IsContradiction (E.standing engine.new)
        (multiplier_views (multiplier_items ms)))) }
    ensures none { IfOk result (λ found. IfNone found ((E.last engine.new ≡ Held)
        × Solves (E.point engine.new) (E.standing engine.new))) }
    ensures going { E.last engine.new ≢ Stopped }
    ensures stands { E.standing engine.new ≡ E.standing engine.old }
    ensures limits { E.limits engine.new ≡ E.limits engine.old }
    ensures stop { IfErr result (λ stop. (stop ≡ Memory) ⊎ ((rows : List Row) → E.handed engine.old rows
        → E.may_stop (E.limits engine.old) (E.standing engine.old) rows stop)) }
    ensures handed { (rows : List Row) → E.handed engine.old rows → E.handed engine.new rows }
{
    match answer(alloc, engine) {
        Ok(found) => Ok(found),
        Err(stop) => {
            let mark = engine.mark();
            engine.back_to(mark);
            Err(stop)
        }
    }
}
