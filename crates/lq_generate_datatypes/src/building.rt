// Constructors one by one, in the order of their definition.
ghost use Rattle.std.specs.Prelude.{◌≡◌, ℕ, ◌<◌, ◌≤◌, ◌==◌, cond, [], ◌∷◌, ◌+◌, ◌++◌, All, List, IfOk, OnOk, length, map};
ghost use Rattle.lq_generate_operations.specs.Basis.Basis.{constructors_at, equations_at, items_at};
ghost use Rattle.lq_generate_fresh.specs.Fresh.Defined.{ordered_in, ConstructorsDiffer};
ghost use Rattle.lq_refined_measures.specs.Equations.Facts.{equations as equations_by};
ghost use Rattle.lq_refined_types.specs.Parts.Part.{Scopes as ScopeLists};
ghost use Rattle.lq_logic_predicates.specs.Sum.{var};
ghost use Rattle.lq_logic_predicates.specs.declared.symbol.Symbol.TheVariants.{Value};
ghost use Rattle.lq_refined_types.specs.Types.Refined.{Refined};
ghost use Rattle.lq_text_qualifiers.specs.Sorting.Sorted.{Measure};
ghost use Rattle.lq_logic_predicates.specs.PredView.{formula_of};
ghost use Rattle.lq_logic_predicates.specs.TermView.{sum_of, term_items};
ghost use Rattle.lq_refined_subtyping.specs.Table.Forms.{each};
ghost use Rattle.lq_refined_subtyping.specs.Table.Unfolding.{all_plain};
ghost use Rattle.lq_refined_subtyping.specs.Table.Whole.{count_of, types_of, Grows};
ghost use Rattle.lq_sound_programs.specs.Scenes.Scenes.{equations_at as equations_for, positions_from};
ghost use Rattle.lq_text_walk.specs.Scoped.Signature.{signature_in, signed};
ghost use Rattle.lq_text_walk.specs.Scoped.Views.{data_view};
ghost use Rattle.lq_text_qualifiers.specs.Sorting.Views.{measure_view};
ghost use Rattle.lq_refined_subtyping.specs.Split.Fields.{AreThere, KnowsFields};
ghost use Rattle.lq_text_tree.specs.Signatures.{predeclared};
ghost use Rattle.lq_text_tree.specs.Types.{Constructor, count_types};
ghost use Rattle.lq_generate_datatypes.specs.Equations.{place_in};
ghost use Rattle.lq_generate_datatypes.specs.Views.{Holds};

use crate::plain::all_plain;
use lq_base_names::Name;
use lq_generate_operations::basis::Declared;
use lq_logic_predicates::{Pred, Symbol, Term, Terms};
use lq_refined_measures::equations::measure_facts;
use lq_refined_substitution::substitution::Parts;
use lq_refined_subtyping::split::ConstructorFields;
use lq_refined_subtyping::table::{Form, Matrix, RefinedTypes};
use lq_text_qualifiers::sorting::ScopedMeasure;
use lq_text_walk::scoped::DataType;
use std::alloc::{AllocError, Global};

/// The datatypes of a program: the constructors of each with their equations, and the types of their fields by their numbers.
#[derive(Drop)]
pub struct Datatypes {
    pub declared: Declared,
    pub fields: ConstructorFields,
}

// What is known so far: by the number of a datatype's name its constructors, and by that of a constructor's its equations and its fields.
#[derive(Drop)]
pub(crate) struct Building {
    pub(crate) constructors: Vec<Vec<Name>>,
    pub(crate) equations: Vec<Vec<Pred>>,
    pub(crate) fields: Vec<Vec<usize>>,
}

// The row of a number.
fn row_at<T>(rows: &[Vec<T>], at: usize) -> &[T]
    ensures { result.now ≡ items_at rows.now at }
{
    match rows.get(at) {
        Some(row) => row.as_slice(),
        None => &[],
    }
}

// So many rows or more.
fn widen<T: Drop>(alloc: Global, rows: &mut Vec<Vec<T>>, count: usize) -> Result<(), AllocError>
    ensures long { OnOk result (count ≤ length rows.new.items) }
    ensures same { OnOk result ((i : ℕ) → items_at rows.new.items i ≡ items_at rows.old.items i) }
{
    for _ in rows.len()..count {
        rows.push(Vec::new(alloc))?;
    }
    Ok(())
}

// Puts an item behind those of the row of a name's number.
fn push_at<T: Drop>(
    alloc: Global,
    rows: &mut Vec<Vec<T>>,
    name: Name,
    item: T,
) -> Result<(), AllocError>
    ensures { OnOk result ((i : ℕ) → items_at rows.new.items i ≡ items_at rows.old.items i ++ cond (name.0 == i) (item ∷ []) []) }
{
    let at = name.0 as usize;
    widen(alloc, rows, at + 1)?;
    rows[at].push(item)?;
    Ok(())
}

// The position behind this one. Past 2^32 - 1 it answers that there is no memory.
fn next_position(position: u32) -> Result<u32, AllocError>
    ensures { IfOk result (λ next. next ≡ position + 1) }
{
    match position.checked_add(1) {
        Some(next) => Ok(next),
        None => Err(AllocError),
    }
}

// `#1`, `#2` and so on for so many fields.
fn positions(alloc: Global, count: usize) -> Result<Terms, AllocError>
    ensures { IfOk result (λ terms. map sum_of (term_items terms) ≡ positions_from 0 count) }
{
    let mut terms = Terms::new(alloc)?;
    let mut position: u32 = 0;
    for _ in 0..count {
        position = next_position(position)?;
        terms.push(Term::Var(Symbol::Position(position)))?;
    }
    Ok(terms)
}

// The equations of a constructor of this name at its place, behind those that its name has.
fn add_equations(
    alloc: Global,
    equations: &mut Vec<Vec<Pred>>,
    measures: &[ScopedMeasure],
    datatype: Name,
    place: usize,
    name: Name,
    fields: usize,
) -> Result<(), AllocError>
    ensures { OnOk result ((c : ℕ) → map formula_of (items_at equations.new.items c) ≡ map formula_of (items_at equations.old.items c)
        ++ cond (name.0 == c) (equations_by (map measure_view measures.now) datatype.0 place (positions_from 0 fields) (var Value)) []) }
{
    let terms = positions(alloc, fields)?;
    let value = Term::Var(Symbol::Value);
    let facts = measure_facts(alloc, measures, datatype, place, &terms, &value)?;
    for fact in facts.as_slice() {
        push_at(alloc, equations, name, fact.copy(alloc)?)?;
    }
    Ok(())
}

// The numbers of fields' types behind those that the name has.
fn add_fields(
    alloc: Global,
    fields: &mut Vec<Vec<usize>>,
    name: Name,
    rows: &[usize],
) -> Result<(), AllocError>
    ensures { OnOk result ((c : ℕ) → items_at fields.new.items c ≡ items_at fields.old.items c ++ cond (name.0 == c) rows.now []) }
{
    for row in rows {
        push_at(alloc, fields, name, *row)?;
    }
    Ok(())
}

impl Building {
    fn new(alloc: Global) -> Building
        ensures { (ms : List Measure) (all : List Refined) → Holds ms all result [] }
    {
        Building {
            constructors: Vec::new(alloc),
            equations: Vec::new(alloc),
            fields: Vec::new(alloc),
        }
    }

    // A constructor of a datatype behind the others, with the numbers of its fields' types.
    fn add(
        &mut self,
        alloc: Global,
        measures: &[ScopedMeasure],
        datatype: Name,
        name: Name,
        rows: &[usize],
    ) -> Result<(), AllocError>
        ensures { OnOk result ((all : List Refined) (ks : List (ℕ × Constructor)) (k : Constructor) → k.datatype ≡ datatype.0
            → each all rows.now ≡ all_plain k.fields → All (λ p. p < length all) rows.now
            → Holds (map measure_view measures.now) all self.old ks
            → Holds (map measure_view measures.now) all self.new (ks ++ (name.0, k) ∷ [])) }
    {
        let place = row_at(&self.constructors, datatype.0 as usize).len();
        add_equations(
            alloc,
            &mut self.equations,
            measures,
            datatype,
            place,
            name,
            rows.len(),
        )?;
        push_at(alloc, &mut self.constructors, datatype, name)?;
        add_fields(alloc, &mut self.fields, name, rows)?;
        Ok(())
    }

    // `list` and `option`.
    fn add_predeclared(
        &mut self,
        alloc: Global,
        types: &mut RefinedTypes,
        measures: &[ScopedMeasure],
    ) -> Result<(), AllocError>
        ensures holds { OnOk result ((scopes : ScopeLists) → Holds (map measure_view measures.now) (types_of scopes types.old) self.old []
            → Holds (map measure_view measures.now) (types_of scopes types.new) self.new predeclared) }
        ensures grows { Grows types.old types.new }
    {
        let element = types.push(Form::Variable(0), Parts::new(alloc))?;
        let arguments = vec![in alloc; element]?;
        let list = Form::Data(Name::LIST, arguments, Matrix::new(alloc));
        let list = types.push(list, Parts::new(alloc))?;
        self.add(alloc, measures, Name::LIST, Name::NIL, &[])?;
        self.add(alloc, measures, Name::LIST, Name::CONS, &[element, list])?;
        self.add(alloc, measures, Name::OPTION, Name::NONE, &[])?;
        self.add(alloc, measures, Name::OPTION, Name::SOME, &[element])?;
        Ok(())
    }

    // The constructors of a datatype of the program.
    fn add_datatype(
        &mut self,
        alloc: Global,
        types: &mut RefinedTypes,
        measures: &[ScopedMeasure],
        datatype: &DataType,
    ) -> Result<(), AllocError>
        ensures holds { OnOk result ((scopes : ScopeLists) (ks : List (ℕ × Constructor))
            → Holds (map measure_view measures.now) (types_of scopes types.old) self.old ks
            → Holds (map measure_view measures.now) (types_of scopes types.new) self.new
            (ks ++ map (signed (data_view datatype.now)) (data_view datatype.now).constructors)) }
        ensures grows { Grows types.old types.new }
    {
        for constructor in &datatype.constructors {
            let rows = all_plain(alloc, types, &constructor.fields)?;
            self.add(alloc, measures, datatype.name, constructor.name, &rows)?;
        }
        Ok(())
    }
}

/// The datatypes of a program that defines these, the predeclared ones among them, with these measures. The types of fields are added to the
/// table.
pub fn declare(
    alloc: Global,
    types: &mut RefinedTypes,
    defined: &[DataType],
    measures: &[ScopedMeasure],
) -> Result<Datatypes, AllocError>
    ensures constructors { IfOk result (λ made. (d : ℕ) → constructors_at made.declared d
        ≡ ordered_in (map data_view defined.now) d) }
    ensures equations { IfOk result (λ made. ConstructorsDiffer (map data_view defined.now) → (c : ℕ)
        → map formula_of (equations_at made.declared c) ≡ equations_for (map measure_view measures.now)
        (place_in (map data_view defined.now)) c (signature_in (map data_view defined.now) c)) }
    ensures fields { IfOk result (λ made. ConstructorsDiffer (map data_view defined.now) → (scopes : ScopeLists)
        → KnowsFields (types_of scopes types.new) made.fields (signature_in (map data_view defined.now))) }
    ensures there { IfOk result (λ made. AreThere (count_of types.new) made.fields) }
    ensures grows { Grows types.old types.new }
{
    let mut building = Building::new(alloc);
    building.add_predeclared(alloc, types, measures)?;
    for datatype in defined {
        building.add_datatype(alloc, types, measures, datatype)?;
    }
    let Building {
        constructors,
        equations,
        fields,
    } = building;
    Ok(Datatypes {
        declared: Declared::new(constructors, equations),
        fields: ConstructorFields { rows: fields },
    })
}
