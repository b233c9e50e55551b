// A program as the typing rules have it, with the templates of its points.
ghost use Rattle.std.specs.Prelude.{◌≡◌, IfOk};
ghost use Rattle.lq_types_infer.specs.Annotation.Whole as annotated;
ghost use Rattle.lq_generate_fresh.specs.Fresh.Defined.{ConstructorsDiffer};
ghost use Rattle.lq_generate_fresh.specs.Fresh.Views.{unknowns_of};
ghost use Rattle.lq_generate_fresh.specs.Fresh.Wanted.{rows_types, AreRows};
ghost use Rattle.lq_meaning_normalize.specs.Normalize.Made.{normal_view};
ghost use Rattle.lq_generate_reading.specs.Notes.Noted.{annotation_of};
ghost use Rattle.lq_refined_types.specs.Parts.Part.{Scopes as ScopeLists};
ghost use Rattle.lq_refined_templates.specs.Programs.BlockView.{program_view};
ghost use Rattle.lq_refined_templates.specs.Points.Reading.{program_of};
ghost use Rattle.lq_refined_templates.specs.Points.Templates.{Datatypes as Defined, templates_from, unknowns_of as unknowns_for};
ghost use Rattle.lq_text_walk.specs.Scoped.Signature.{signature_in};
ghost use Rattle.lq_generate_fresh.specs.Fresh.Defined.{ordered_in};

use lq_generate_fresh::fresh::{Datatypes, Given, Templates, make};
use lq_generate_reading::notes::Noted;
use lq_generate_reading::reading::read;
use lq_meaning_normalize::normalize::NormalProgram;
use lq_refined_instances::Scopes;
use lq_refined_templates::programs::{Item, Point};
use std::alloc::{AllocError, Global};

/// A program as the typing rules have it, its points, and the numbers of the templates of each point in a table.
#[derive(Drop)]
pub struct Made {
    pub program: Vec<Item>,
    pub points: Vec<Point>,
    pub templates: Templates,
    pub rows: Vec<Vec<usize>>,
}

/// A typed program by its normal form, as the typing rules have it, with the templates of its points.
pub fn templates_of(
    alloc: Global,
    noted: &Noted,
    normal: &NormalProgram,
) -> Result<Made, AllocError>
    requires differ { ConstructorsDiffer (annotated.program_of noted.now.program.annotated).datatypes }
    ensures program { IfOk result (λ m. program_view m.program.items
        ≡ (program_of (annotation_of noted.now) (normal_view normal.now).items).read) }
    ensures templates { IfOk result (λ m. (D : Defined)
        → D.constructors ≡ signature_in (annotated.program_of noted.now.program.annotated).datatypes
        → D.ordered ≡ ordered_in (annotated.program_of noted.now.program.annotated).datatypes
        → (scopes : ScopeLists) → rows_types scopes m.templates m.rows.items
        ≡ templates_from D 0 (program_of (annotation_of noted.now) (normal_view normal.now).items).points) }
    ensures unknowns { IfOk result (λ m. (D : Defined)
        → D.constructors ≡ signature_in (annotated.program_of noted.now.program.annotated).datatypes
        → D.ordered ≡ ordered_in (annotated.program_of noted.now.program.annotated).datatypes
        → unknowns_of m.templates
        ≡ unknowns_for D (program_of (annotation_of noted.now) (normal_view normal.now).items).points) }
    ensures there { IfOk result (λ m. AreRows m.templates m.rows.items) }
{
    let notes = noted.notes();
    let scopes = Scopes::new(alloc)?;
    let reading = read(alloc, normal.definitions(), &notes, scopes)?;
    let datatypes = Datatypes::new(alloc, noted.program().annotated().scoped().datatypes())?;
    let given = Given {
        types: notes.types,
        datatypes: &datatypes,
    };
    let templates = Templates::over(alloc, reading.scopes);
    let made = make(alloc, templates, &given, &reading.points)?;
    Ok(Made {
        program: reading.items,
        points: reading.points,
        templates: made.templates,
        rows: made.rows,
    })
}
