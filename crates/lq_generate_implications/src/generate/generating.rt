// Programs and their implications.
ghost use Rattle.std.specs.Prelude.{◌≡◌, ◌<◌, ◌≤◌, ◌-◌, ◌^◌, [], IfErr, IfOk, length, min};
ghost use Rattle.lq_refined_rules.specs.Checks.Basis as checks;
ghost use Rattle.lq_refined_rules.specs.Checks.Listing as listing;
ghost use Rattle.lq_refined_rules.specs.Checks.Ready.{IsReady};
ghost use Rattle.lq_refined_substitution.specs.Implications.Views.{implications_of};
ghost use Rattle.lq_refined_templates.specs.Programs.BlockView.{program_view};
ghost use Rattle.lq_refined_subtyping.specs.Table.Whole.{count_of, Grows};
ghost use Rattle.lq_generate_operations.specs.Basis.Basis.{IsThere, Stands};
ghost use Rattle.lq_generate_implications.specs.Generate.Refusing.{IsRefused};

use crate::generate::error::GenerateError;
use crate::obligations::{Sources, count_all, imply_all};
use crate::walk::{Walk, ask_all};
use lq_generate_operations::basis::Basis;
use lq_refined_rules::obligations::{obligations_are_implications, obligations_are_shaped};
use lq_refined_substitution::implications::{IMPLICATION_LIMIT, Implications};
use lq_refined_subtyping::table::RefinedTypes;
use lq_refined_templates::programs::Item;
use std::alloc::Global;

/// The implications of a program, and the table of refined types, in which those of the points stand as before.
#[derive(Drop)]
pub struct Generated {
    pub types: RefinedTypes,
    pub implications: Implications,
}

/// The implications of a program in their order, over a basis whose types stand in the table. Of a program that has more than 262,144 none is
/// made: they are counted before.
pub fn generate(
    alloc: Global,
    types: RefinedTypes,
    basis: &Basis<'_>,
    program: &[Item],
) -> Result<Generated, GenerateError>
    requires there { IsThere (count_of types) basis.now }
    // What stands in memory is a basis of the rules, and the program is ready over it.
    requires ready { (rules : checks.Basis) × Stands rules basis.now types × IsReady rules [] (program_view program.now) }
    ensures implications { IfOk result (λ g. (rules : checks.Basis) → Stands rules basis.now types → implications_of g.implications
        ≡ listing.implications_of rules [] (program_view program.now)) }
    ensures few { IfOk result (λ g. (rules : checks.Basis) → Stands rules basis.now types
        → length (listing.implications_of rules [] (program_view program.now)) ≤ 262144) }
    ensures refused { IfErr result (λ e. (rules : checks.Basis) → Stands rules basis.now types
        → IsRefused (listing.implications_of rules [] (program_view program.now)) e) }
    ensures grows { IfOk result (λ g. Grows types g.types) }
{
    obligations_are_implications();
    obligations_are_shaped();
    let Walk {
        mut types,
        mut list,
        names: _names,
        asked,
    } = ask_all(alloc, types, basis, program)?;
    let count = count_all(alloc, &mut types, basis.scopes, &asked)?;
    if count > IMPLICATION_LIMIT as u64 {
        return Err(GenerateError::ImplicationsPast(count));
    }
    let sources = Sources {
        scopes: basis.scopes,
        fields: basis.fields,
    };
    imply_all(alloc, &mut list, &mut types, &sources, &asked)?;
    Ok(Generated {
        types,
        implications: list,
    })
}
