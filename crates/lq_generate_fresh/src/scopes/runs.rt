// Unknowns that are given alone, and copies of patterns.
ghost use Rattle.std.specs.Prelude.{◌≡◌, ◌<◌, [], ◌++◌, OnOk, length, map, slice_index_or};
ghost use Rattle.lq_refined_copies.specs.Runs.{run_view};
ghost use Rattle.lq_refined_copies.specs.Views.{patterns_of, shared_view, table_of};
ghost use Rattle.lq_refined_copies.specs.declared.unknowns.Run.TheVariants.{Copies as Many};
ghost use Rattle.lq_refined_substitution.specs.Substitution.Views.{pattern_lists, scope_lists, unknown_lists};
ghost use Rattle.lq_generate_fresh.specs.Scopes.Inside.{inner_unknown, symbols_of_unknown};
ghost use Rattle.lq_generate_fresh.specs.Scopes.Numbered.{AreAllMade};

use crate::scopes::tables::number_at;
use lq_refined_copies::{Run, SharedUnknowns};
use lq_refined_substitution::substitution::Scopes;
use std::alloc::AllocError;

// Adds the unknowns of a run, by its place.
fn add_run(
    scopes: &mut Scopes,
    unknowns: &SharedUnknowns,
    numbers: &[u64],
    at: usize,
) -> Result<(), AllocError>
    requires at { at < length unknowns.now.runs.items }
    requires made { AreAllMade (table_of unknowns.now) (scope_lists scopes.old) numbers.now }
    requires patterns { pattern_lists scopes.old ≡ map (map inner_unknown) (patterns_of unknowns.now) }
    ensures added { OnOk result (unknown_lists scopes.new ≡ unknown_lists scopes.old ++ map symbols_of_unknown
        (run_view (table_of unknowns.now) (patterns_of unknowns.now) (slice_index_or unknowns.now.runs.items at (Many 0 0)))) }
    ensures scopes { scope_lists scopes.new ≡ scope_lists scopes.old }
    ensures patterns { pattern_lists scopes.new ≡ pattern_lists scopes.old }
{
    match unknowns.runs()[at] {
        Run::One(unknown) => {
            scopes.add_unknown(number_at(numbers, unknown.scope))?;
            Ok(())
        }
        Run::Copies { pattern, scope } => {
            scopes.add_copies(pattern, number_at(numbers, scope))?;
            Ok(())
        }
    }
}

/// Adds all unknowns in their order.
pub(crate) fn add_runs(
    scopes: &mut Scopes,
    unknowns: &SharedUnknowns,
    numbers: &[u64],
) -> Result<(), AllocError>
    requires none { unknown_lists scopes.old ≡ [] }
    requires made { AreAllMade (table_of unknowns.now) (scope_lists scopes.old) numbers.now }
    requires patterns { pattern_lists scopes.old ≡ map (map inner_unknown) (patterns_of unknowns.now) }
    ensures { OnOk result (unknown_lists scopes.new ≡ map symbols_of_unknown (shared_view unknowns.now)) }
{
    for at in 0..unknowns.runs().len() {
        add_run(scopes, unknowns, numbers, at)?;
    }
    Ok(())
}
