// The engines take the rows of a case, each tagged with its place, and are asked of them.
ghost use Rattle.std.specs.Prelude.{◌≡◌, ◌≢◌, ◌≤◌, ◌<◌, ℕ, IfOk, OnOk, length};
ghost use Rattle.lq_logic_rows.specs.Answers.{Stopped};
ghost use Rattle.lq_logic_rows.specs.Contradiction.{Tagged, tagged};
ghost use Rattle.lq_logic_rows.specs.Row.{Row};
ghost use Rattle.lq_cases_engines.specs.Engines.Rows.{AreByPlace, IsAsked, StandBehind};

use crate::engines::error::{CaseError, given};
use crate::engines::evidence::{Outcome, ask_engine};
use crate::engines::rows::{RowCase, is_difference, linear_row};
use lq_logic_rows::{LinearEngine, LinearRow};
use std::alloc::Global;

/// How many rows an engine is asked of at most.
pub(crate) const ROWS: u64 = 64;

/// Has the engine take a row, tagged with its place.
fn take_row<E: LinearEngine>(engine: &mut E, row: &LinearRow) -> Result<(), CaseError>
    requires takes { E.takes (E.limits engine.old) (E.standing engine.old) row.now }
    requires placed { AreByPlace (E.standing engine.old) }
    requires going { E.last engine.old ≢ Stopped }
    ensures limits { E.limits engine.new ≡ E.limits engine.old }
    ensures placed { AreByPlace (E.standing engine.new) }
    ensures behind { StandBehind (E.standing engine.old) (E.standing engine.new) }
    ensures going { OnOk result (E.last engine.new ≢ Stopped) }
{
    let tag = engine.mark().0;
    match engine.assert_row(row, tag) {
        Ok(()) => Ok(()),
        Err(stop) => Err(CaseError::Stop(stop)),
    }
}

/// Has the engine take rows behind those that stand. It is false where they are to be difference rows, and one isn't.
pub(crate) fn take_rows<E: LinearEngine>(
    alloc: Global,
    engine: &mut E,
    rows: &[RowCase],
    differences: bool,
) -> Result<bool, CaseError>
    requires takes { (s : Tagged) (r : Row) → length s < 64 → IsAsked differences r → E.takes (E.limits engine.old) s r }
    requires placed { AreByPlace (E.standing engine.old) }
    requires going { E.last engine.old ≢ Stopped }
    ensures limits { E.limits engine.new ≡ E.limits engine.old }
    ensures placed { AreByPlace (E.standing engine.new) }
    ensures behind { StandBehind (E.standing engine.old) (E.standing engine.new) }
    ensures going { OnOk result (E.last engine.new ≢ Stopped) }
{
    for row in rows {
        if engine.mark().0 >= ROWS {
            return Err(CaseError::NotACase);
        }
        let row = linear_row(alloc, row)?;
        if differences && !is_difference(row.parts()) {
            return Ok(false);
        }
        take_row(engine, &row)?;
    }
    Ok(true)
}

/// The outcome where the rows weren't taken: the engine stopped, or there is no case.
fn untaken(error: CaseError) -> Result<Option<Outcome>, CaseError> {
    match error {
        CaseError::Stop(stop) => Ok(Some(Outcome::Stops(stop))),
        CaseError::NotACase | CaseError::Ungathered | CaseError::Past(_) | CaseError::Memory => {
            Err(error)
        }
    }
}

/// What the engine answers of rows, the first of which stand: nothing where they are to be difference rows, and one isn't.
pub(crate) fn outcome_of<E: LinearEngine>(
    alloc: Global,
    engine: &mut E,
    rows: &[RowCase],
    differences: bool,
) -> Result<Option<Outcome>, CaseError>
    requires takes { (s : Tagged) (r : Row) → length s < 64 → IsAsked differences r → E.takes (E.limits engine.old) s r }
    requires placed { AreByPlace (E.standing engine.old) }
    requires going { E.last engine.old ≢ Stopped }
    ensures limits { E.limits engine.new ≡ E.limits engine.old }
    ensures behind { StandBehind (E.standing engine.old) (E.standing engine.new) }
{
    let next = given(rows.get(engine.mark().0 as usize..))?;
    match take_rows(alloc, engine, next, differences) {
        Ok(true) => Ok(Some(ask_engine(alloc, engine, rows)?)),
        Ok(false) => Ok(None),
        Err(error) => untaken(error),
    }
}
