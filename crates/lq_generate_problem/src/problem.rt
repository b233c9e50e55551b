// What is to be solved for a typed program.
ghost use Rattle.std.specs.Prelude.{◌≡◌, ◌<◌, ◌≤◌, [], All, IfErr, IfOk, length, map};
ghost use Rattle.lq_types_infer.specs.Annotation.Whole as annotated;
ghost use Rattle.lq_refined_rules.specs.Checks.Listing as listing;
ghost use Rattle.lq_refined_rules.specs.Checks.Ready.{IsReady};
ghost use Rattle.lq_generate_fresh.specs.Fresh.Defined.{ConstructorsDiffer};
ghost use Rattle.lq_refined_substitution.specs.Implications.Views.{implications_of};
ghost use Rattle.lq_refined_instances.specs.Instances.{all_instances_of, total_count};
ghost use Rattle.lq_refined_instances.specs.Views.{instances_view, measure_name};
ghost use Rattle.lq_refined_subtyping.specs.Table.Whole.{count_of};
ghost use Rattle.lq_refined_substitution.specs.Substitution.Views.{scopes_view};
ghost use Rattle.lq_meaning_normalize.specs.Normalize.Made.{normal_view};
ghost use Rattle.lq_generate_reading.specs.Notes.Noted.{annotation_of};
ghost use Rattle.lq_refined_templates.specs.Programs.BlockView.{program_view};
ghost use Rattle.lq_text_qualifiers.specs.Sorting.Views.{measure_view, qualifier_view};
ghost use Rattle.lq_generate_problem.specs.Posed.{basis_for, read_of, templates_for, unknowns_for, HasTemplates};
ghost use Rattle.lq_generate_problem.specs.Refusing.{IsRefused};

use crate::error::ProblemError;
use crate::found::{find_first, find_last};
use crate::made::{Made, templates_of};
use lq_generate_datatypes::declare;
use lq_generate_fresh::scopes::unknown_scopes;
use lq_generate_implications::generate::generate;
use lq_generate_operations::basis::Basis;
use lq_generate_reading::notes::Noted;
use lq_meaning_normalize::normalize::NormalProgram;
use lq_refined_instances::Instances;
use lq_refined_substitution::implications::Implications;
use lq_refined_substitution::substitution::Scopes;
use lq_refined_subtyping::table::RefinedTypes;
use lq_refined_templates::programs::Item;
use lq_text_qualifiers::sorting::{ScopedMeasure, ScopedQualifier};
use std::alloc::Global;

/// What is to be solved for a program: its implications over the instances of its unknowns, and the templates that the solution is put into.
#[derive(Drop)]
pub struct Problem {
    /// As the typing rules have it, with the numbers of its points.
    pub program: Vec<Item>,
    /// Refined types, those of the templates among them.
    pub types: RefinedTypes,
    /// The numbers of the templates of each point.
    pub templates: Vec<Vec<usize>>,
    /// Of what the instances of each unknown may speak.
    pub scopes: Scopes,
    pub instances: Instances,
    pub implications: Implications,
}

/// What is to be solved for a typed program and its normal form, with these measures and qualifiers. Past 262,144 replacements of
/// placeholders or implications it is refused, the replacements first.
pub fn pose(
    alloc: Global,
    noted: &Noted,
    normal: &NormalProgram,
    measures: &[ScopedMeasure],
    qualifiers: &[ScopedQualifier],
) -> Result<Problem, ProblemError>
    requires differ { ConstructorsDiffer (annotated.program_of noted.now.program.annotated).datatypes }
    requires ready { IsReady (basis_for (annotated.program_of noted.now.program.annotated).datatypes (map measure_view measures.now)
        (annotation_of noted.now) (normal_view normal.now).items) [] (read_of (annotation_of noted.now) (normal_view normal.now).items) }
    ensures program { IfOk result (λ p. program_view p.program.items
        ≡ read_of (annotation_of noted.now) (normal_view normal.now).items) }
    ensures templates { IfOk result (λ p. HasTemplates p.types p.templates.items
        (templates_for (annotated.program_of noted.now.program.annotated).datatypes (map measure_view measures.now)
        (annotation_of noted.now) (normal_view normal.now).items)) }
    ensures there { IfOk result (λ p. All (λ row. All (λ r. r < count_of p.types) row.items) p.templates.items) }
    ensures scopes { IfOk result (λ p. scopes_view p.scopes
        ≡ (basis_for (annotated.program_of noted.now.program.annotated).datatypes (map measure_view measures.now)
        (annotation_of noted.now) (normal_view normal.now).items).setting.scopes) }
    ensures instances { IfOk result (λ p. instances_view p.instances
        ≡ all_instances_of (map measure_name measures.now) (map qualifier_view qualifiers.now)
        (unknowns_for (annotated.program_of noted.now.program.annotated).datatypes (map measure_view measures.now)
        (annotation_of noted.now) (normal_view normal.now).items)) }
    ensures implications { IfOk result (λ p. implications_of p.implications
        ≡ listing.implications_of (basis_for (annotated.program_of noted.now.program.annotated).datatypes (map measure_view measures.now)
        (annotation_of noted.now) (normal_view normal.now).items) [] (read_of (annotation_of noted.now) (normal_view normal.now).items)) }
    // There is something to be solved only where there are no more replacements and implications than the limits.
    ensures few { IfOk result (λ _. (total_count (map qualifier_view qualifiers.now)
        (unknowns_for (annotated.program_of noted.now.program.annotated).datatypes (map measure_view measures.now)
        (annotation_of noted.now) (normal_view normal.now).items) ≤ 262144)
        × (length (listing.implications_of (basis_for (annotated.program_of noted.now.program.annotated).datatypes
        (map measure_view measures.now) (annotation_of noted.now) (normal_view normal.now).items) []
        (read_of (annotation_of noted.now) (normal_view normal.now).items)) ≤ 262144)) }
    ensures refused { IfErr result (IsRefused (map qualifier_view qualifiers.now)
        (unknowns_for (annotated.program_of noted.now.program.annotated).datatypes (map measure_view measures.now)
        (annotation_of noted.now) (normal_view normal.now).items)
        (listing.implications_of (basis_for (annotated.program_of noted.now.program.annotated).datatypes (map measure_view measures.now)
        (annotation_of noted.now) (normal_view normal.now).items) [] (read_of (annotation_of noted.now) (normal_view normal.now).items))) }
{
    let Made {
        program,
        points: _points,
        templates,
        rows,
    } = templates_of(alloc, noted, normal)?;
    let (mut types, unknowns) = templates.into_parts();
    let scopes = unknown_scopes(alloc, &unknowns)?;
    let found = find_first(alloc, qualifiers, measures, unknowns)?;
    let datatypes = noted.program().annotated().scoped().datatypes();
    let known = declare(alloc, &mut types, datatypes, measures)?;
    let basis = Basis {
        scopes: &scopes,
        fields: &known.fields,
        declared: &known.declared,
        templates: &rows,
    };
    let generated = generate(alloc, types, &basis, &program)?;
    let instances = find_last(alloc, qualifiers, measures, found)?;
    Ok(Problem {
        program,
        types: generated.types,
        templates: rows,
        scopes,
        instances,
        implications: generated.implications,
    })
}
