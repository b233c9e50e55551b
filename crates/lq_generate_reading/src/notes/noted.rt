// What is known of a typed program.
ghost use Rattle.std.specs.Prelude.{◌≡◌, ◌++◌, ◌∷◌, [], IfOk, length, map};
ghost use Rattle.lq_types_infer.specs.Annotation.Whole.{program_of};
ghost use Rattle.lq_text_walk.specs.Scoped.Views.{source_view};
ghost use Rattle.lq_text_walk.specs.Scoped.Whole.{scoped_view};
ghost use Rattle.lq_types_rules.specs.Typings.Principal.{node_count};
ghost use Rattle.lq_generate_reading.specs.Notes.Slots.{HasSlots, IsRightOf};
ghost use Rattle.lq_types_rules.specs.Visits.Laws.{slot_count};

use crate::notes::copying::copied;
use crate::visibility::Notes;
use lq_base_names::{Binder, Name};
use lq_text_walk::scoped::Scoped;
use lq_types_infer::annotation::Annotated;
use lq_types_infer::instantiation::Instantiated;
use lq_types_table::{TypeHead, TypeTable};
use std::alloc::{AllocError, Global};

/// A typed program, and what is known of the nodes and the binders of its normal form, in which nodes keep their numbers: their types, the
/// types for the type variables of uses of generalised definitions, and the source names of binders.
#[derive(Drop)]
pub struct Noted {
    program: Instantiated,
    // those of the program's annotation, and unit behind them
    types: TypeTable,
    unit: u32,
    // the types of nodes, and behind them those of binders
    slots: Vec<u32>,
    texts: Vec<Option<Name>>,
    value: Name,
    ghost right: { ∥ IsRightOf program types unit slots.items texts.items ∥₁ },
}

// A number of 32 bits; where it needs more, there is no memory.
fn number(at: usize) -> Result<u32, AllocError>
    ensures { IfOk result (λ n. n ≡ at) }
{
    match u32::try_from(at) {
        Ok(number) => Ok(number),
        Err(_) => Err(AllocError),
    }
}

// The types of all nodes.
fn node_types(alloc: Global, annotated: &Annotated) -> Result<Vec<u32>, AllocError>
    ensures { IfOk result (λ slots. HasSlots annotated.now (node_count (program_of annotated.now)) slots.items) }
{
    let mut slots = Vec::new(alloc);
    for at in 0..annotated.nodes() {
        let id = number(at)?;
        slots.push(annotated.type_of(id))?;
    }
    Ok(slots)
}

// The types of all nodes, and behind them those of binders.
fn slot_types(alloc: Global, annotated: &Annotated) -> Result<Vec<u32>, AllocError>
    ensures { IfOk result (λ slots. HasSlots annotated.now (slot_count (program_of annotated.now)) slots.items) }
{
    let mut slots = node_types(alloc, annotated)?;
    for at in 0..annotated.scoped().binders() {
        let binder = Binder(number(at)?);
        slots.push(annotated.type_of_binder(binder))?;
    }
    Ok(slots)
}

// The source names of all binders.
fn source_names(alloc: Global, program: &Scoped) -> Result<Vec<Option<Name>>, AllocError>
    ensures { IfOk result (λ texts. map source_view texts.items ≡ (scoped_view program.now).sources) }
{
    let mut texts = Vec::new(alloc);
    for at in 0..program.binders() {
        let binder = Binder(number(at)?);
        texts.push(program.source_of(binder))?;
    }
    Ok(texts)
}

/// What is known of a typed program, where predicates speak of their value by the name `value`.
pub fn note(alloc: Global, program: Instantiated, value: Name) -> Result<Noted, AllocError>
    ensures program { IfOk result (λ noted. noted.program ≡ program) }
    ensures value { IfOk result (λ noted. noted.value ≡ value) }
{
    let annotated = program.annotated();
    let mut types = copied(alloc, annotated.types())?;
    let unit = types.push(TypeHead::Unit, &[])?;
    let slots = slot_types(alloc, annotated)?;
    let texts = source_names(alloc, annotated.scoped())?;
    Ok(Noted {
        program,
        types,
        unit,
        slots,
        texts,
        value,
    })
}

impl Noted {
    ghost use Rattle.lq_generate_reading.specs.Notes.Noted.{annotation_of};
    ghost use Rattle.lq_generate_reading.specs.Visibility.Notes.{annotation_view, IsRight};

    /// The program.
    pub fn program(&self) -> &Instantiated
        ensures { result.now ≡ self.now.program }
    {
        &self.program
    }

    /// What is known of it.
    pub fn notes(&self) -> Notes<'_>
        ensures right { IsRight result }
        ensures view { annotation_view result ≡ annotation_of self.now }
    {
        let nodes = self.program.annotated().nodes();
        Notes {
            types: &self.types,
            unit: self.unit,
            nodes: &self.slots,
            binders: &self.slots[nodes..],
            starts: self.program.starts(),
            rows: self.program.rows(),
            texts: &self.texts,
            value: self.value,
        }
    }
}
