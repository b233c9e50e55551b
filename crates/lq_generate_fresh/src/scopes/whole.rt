// The scopes of all unknowns.
ghost use Rattle.std.specs.Prelude.{◌≡◌, IfOk};
ghost use Rattle.lq_refined_instances.specs.Scopes.{scope_in};
ghost use Rattle.lq_refined_templates.specs.Points.Templates.{scopes_of};
ghost use Rattle.lq_refined_copies.specs.Views.{shared_view};
ghost use Rattle.lq_refined_substitution.specs.Substitution.Views.{scopes_view};
ghost use Rattle.lq_refined_templates.specs.Templates.Scopes.{symbols_in};

use crate::scopes::patterns::add_patterns;
use crate::scopes::runs::add_runs;
use crate::scopes::tables::all_made;
use lq_refined_copies::SharedUnknowns;
use lq_refined_substitution::substitution::Scopes;
use std::alloc::{AllocError, Global};

/// For each unknown the value and the symbols of its scope. Each scope of the table is one scope here, and each pattern is one pattern, with
/// the scopes of its own table.
pub fn unknown_scopes(alloc: Global, unknowns: &SharedUnknowns) -> Result<Scopes, AllocError>
    ensures { IfOk result (λ scopes. scopes_view scopes
        ≡ (λ u. symbols_in (scope_in (scopes_of (shared_view unknowns.now)) u))) }
{
    let mut scopes = Scopes::new(alloc)?;
    let numbers = all_made(alloc, &mut scopes, unknowns.scopes())?;
    add_patterns(alloc, &mut scopes, unknowns.patterns())?;
    add_runs(&mut scopes, unknowns, numbers.as_slice())?;
    Ok(scopes)
}
