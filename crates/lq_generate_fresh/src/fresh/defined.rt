// The datatypes of a program, as matrices need to know them.
ghost use Rattle.std.specs.Prelude.{◌≡◌, ℕ, ◌&&◌, ◌==◌, IfOk, length, map};
ghost use Rattle.lq_refined_types.specs.Types.Unfolding.{are_parameters};
ghost use Rattle.lq_text_qualifiers.specs.Faults.Shapes.{shape_of};
ghost use Rattle.lq_text_tree.specs.SimpleTypeView.{simple_type_view, simple_types_items, simple_types_view};
ghost use Rattle.lq_generate_fresh.specs.Fresh.Defined.{is_variable};
ghost use Rattle.lq_generate_fresh.specs.Fresh.Fields.{AreFields, IsField};
ghost use Rattle.lq_generate_fresh.specs.Fresh.Views.{field_view, shape_if};

use crate::fresh::fields::{Constructor, Datatypes, Field};
use lq_base_names::Name;
use lq_text_qualifiers::sorting::Shape;
use lq_text_tree::{SimpleType, SimpleTypes};
use lq_text_walk::scoped::DataType;
use std::alloc::{AllocError, Global};

// The shape of a type, where predicates speak of it.
fn shape_of(written: &SimpleType) -> Option<Shape>
    ensures { shape_if result ≡ shape_of (simple_type_view written.now) }
{
    match written {
        SimpleType::Int => Some(Shape::Int),
        SimpleType::Bool => Some(Shape::Bool),
        SimpleType::Array(_) => Some(Shape::Array),
        SimpleType::Named(name, _) => Some(Shape::Data(*name)),
        SimpleType::Unit
        | SimpleType::Var(_)
        | SimpleType::Arrow(_, _)
        | SimpleType::Tuple(_)
        | SimpleType::Map(_) => None,
    }
}

// Whether a type is the variable of this number.
fn is_variable(written: &SimpleType, number: u64) -> bool
    ensures { result ≡ is_variable number (simple_type_view written.now) }
{
    match written {
        SimpleType::Var(variable) => number == *variable,
        SimpleType::Int
        | SimpleType::Bool
        | SimpleType::Unit
        | SimpleType::Arrow(_, _)
        | SimpleType::Tuple(_)
        | SimpleType::Array(_)
        | SimpleType::Named(_, _)
        | SimpleType::Map(_) => false,
    }
}

// Whether types are the parameters in their order, as many as there are types.
fn are_parameters(types: &SimpleTypes) -> bool
    ensures { (n : ℕ) → are_parameters 0 n (simple_types_view types.now)
        ≡ (length (simple_types_items types.now) == n && result) }
{
    for at in 0..types.len() {
        if let Some(written) = types.get(at) {
            if !is_variable(written, at as u64) {
                return false;
            }
        }
    }
    true
}

// A number in 32 bits. There is none for more than 2^32 - 1.
fn narrowed(number: u64) -> Result<u32, AllocError>
    ensures { IfOk result (λ narrowed. narrowed ≡ number) }
{
    if number > u32::MAX as u64 {
        return Err(AllocError);
    }
    Ok(number as u32)
}

// What a matrix needs to know of a field of this type.
fn field_of(datatype: Name, written: &SimpleType) -> Result<Field, AllocError>
    ensures { IfOk result (λ field. IsField datatype.0 (simple_type_view written.now) (field_view field)) }
{
    match written {
        SimpleType::Var(parameter) => Ok(Field::Parameter(narrowed(*parameter)?)),
        SimpleType::Named(name, arguments) => {
            if datatype == *name && are_parameters(arguments) {
                return Ok(Field::Again(narrowed(arguments.len() as u64)?));
            }
            Ok(Field::Shaped(Some(Shape::Data(*name))))
        }
        SimpleType::Int
        | SimpleType::Bool
        | SimpleType::Unit
        | SimpleType::Arrow(_, _)
        | SimpleType::Tuple(_)
        | SimpleType::Array(_)
        | SimpleType::Map(_) => Ok(Field::Shaped(shape_of(written))),
    }
}

fn fields_of(alloc: Global, datatype: Name, row: &SimpleTypes) -> Result<Vec<Field>, AllocError>
    ensures { IfOk result (λ fields. AreFields datatype.0 (simple_types_view row.now)
        (map field_view fields.items)) }
{
    let mut fields = Vec::new(alloc);
    for at in 0..row.len() {
        if let Some(written) = row.get(at) {
            fields.push(field_of(datatype, written)?)?;
        }
    }
    Ok(fields)
}

impl Datatypes {
    ghost use Rattle.std.specs.Prelude.{◌≡◌, ℕ, ◌≤◌, List, [], ◌∷◌, ◌++◌, IfOk, OnOk, length, map};
    ghost use Rattle.lq_text_walk.specs.Scoped.Signature.{signature_in, signed};
    ghost use Rattle.lq_text_walk.specs.Scoped.Views.{data_view};
    ghost use Rattle.lq_text_tree.specs.Signatures.{predeclared};
    ghost use Rattle.lq_text_tree.specs.Types.{Constructor as ConstructorKind};
    ghost use Rattle.lq_generate_fresh.specs.Fresh.Defined.{ordered_in, ConstructorsDiffer, Holds};
    ghost use Rattle.lq_generate_fresh.specs.Fresh.Fields.{AreFields};
    ghost use Rattle.lq_generate_fresh.specs.Fresh.Views.{constructors_of, field_view, Describes};

    // So many rows or more.
    fn widen(&mut self, alloc: Global, count: usize) -> Result<(), AllocError>
        ensures long { OnOk result (count ≤ length self.new.rows.items) }
        ensures same { OnOk result ((d : ℕ) → constructors_of self.new d ≡ constructors_of self.old d) }
    {
        for _ in self.rows.len()..count {
            self.rows.push(Vec::new(alloc))?;
        }
        Ok(())
    }

    // A constructor of a datatype, behind its others.
    fn add(
        &mut self,
        alloc: Global,
        datatype: Name,
        name: Name,
        fields: Vec<Field>,
    ) -> Result<(), AllocError>
        ensures { OnOk result ((ks : List (ℕ × ConstructorKind)) (k : ConstructorKind) → k.datatype ≡ datatype.0
            → AreFields datatype.0 k.fields (map field_view fields.items) → Holds self.old ks
            → Holds self.new (ks ++ (name.0, k) ∷ [])) }
    {
        let at = datatype.0 as usize;
        self.widen(alloc, at + 1)?;
        self.rows[at].push(Constructor { name, fields })?;
        Ok(())
    }

    // The constructors of a datatype, in their order.
    fn add_datatype(&mut self, alloc: Global, datatype: &DataType) -> Result<(), AllocError>
        ensures { OnOk result ((ks : List (ℕ × ConstructorKind)) → Holds self.old ks
            → Holds self.new (ks ++ map (signed (data_view datatype.now))
            (data_view datatype.now).constructors)) }
    {
        for constructor in &datatype.constructors {
            let fields = fields_of(alloc, datatype.name, &constructor.fields)?;
            self.add(alloc, datatype.name, constructor.name, fields)?;
        }
        Ok(())
    }

    // `list` and `option`.
    fn predeclared(alloc: Global) -> Result<Datatypes, AllocError>
        ensures { IfOk result (λ datatypes. Holds datatypes predeclared) }
    {
        let mut datatypes = Datatypes {
            rows: Vec::new(alloc),
        };
        let element = Field::Parameter(0);
        let filled = vec![in alloc; element, Field::Again(1)]?;
        let some = vec![in alloc; element]?;
        datatypes.add(alloc, Name::LIST, Name::NIL, Vec::new(alloc))?;
        datatypes.add(alloc, Name::LIST, Name::CONS, filled)?;
        datatypes.add(alloc, Name::OPTION, Name::NONE, Vec::new(alloc))?;
        datatypes.add(alloc, Name::OPTION, Name::SOME, some)?;
        Ok(datatypes)
    }

    /// The predeclared datatypes and those that a program defines, each with its constructors in the order of their definition.
    pub fn new(alloc: Global, defined: &[DataType]) -> Result<Datatypes, AllocError>
        ensures { IfOk result (λ datatypes. ConstructorsDiffer (map data_view defined.now)
            → Describes datatypes (signature_in (map data_view defined.now)) (ordered_in (map data_view defined.now))) }
    {
        let mut datatypes = Datatypes::predeclared(alloc)?;
        for datatype in defined {
            datatypes.add_datatype(alloc, datatype)?;
        }
        Ok(datatypes)
    }
}
