// The matrices of fresh templates.
ghost use Rattle.std.specs.Prelude.{◌≡◌, ◌+◌, IfOk, map};
ghost use Rattle.lq_generate_fresh.specs.Fresh.Fields.{any_again, is_field_again, shape_in};
ghost use Rattle.lq_generate_fresh.specs.Fresh.Views.{field_view, shape_if};

use crate::fresh::fields::{Constructor, Field};
use crate::fresh::templates::Templates;
use lq_base_names::Name;
use lq_logic_predicates::Symbol;
use lq_refined_substitution::substitution::{Part, Parts, Subst};
use lq_refined_subtyping::table::{Cell, Matrix, Place};
use lq_text_qualifiers::sorting::Shape;
use std::alloc::{AllocError, Global};

// Whether a field is the datatype again, where that has so many arguments.
fn is_again(field: Field, count: usize) -> bool
    ensures { result ≡ is_field_again count (field_view field) }
{
    match field {
        Field::Again(parameters) => parameters as usize == count,
        Field::Shaped(_) | Field::Parameter(_) => false,
    }
}

// Whether some field is the datatype again.
fn has_again(fields: &[Field], count: usize) -> bool
    ensures { result ≡ any_again count (map field_view fields.now) }
{
    for field in fields {
        if is_again(*field, count) {
            return true;
        }
    }
    false
}

// The shape of a field, where the arguments of its datatype have these shapes.
fn shape_of(datatype: Name, field: Field, shapes: &[Option<Shape>]) -> Option<Shape>
    ensures { shape_if result ≡ shape_in datatype.0 (map shape_if shapes.now) (field_view field) }
{
    match field {
        Field::Again(_) => Some(Shape::Data(datatype)),
        Field::Shaped(shape) => shape,
        Field::Parameter(parameter) => match shapes.get(parameter as usize) {
            Some(shape) => *shape,
            None => None,
        },
    }
}

// What stands behind so many components or fields. There is no number for more than 2^32 - 1 of them.
pub(crate) fn position_behind(count: usize) -> Result<u32, AllocError>
    ensures { IfOk result (λ at. at ≡ count + 1) }
{
    if count >= u32::MAX as usize {
        return Err(AllocError);
    }
    Ok(count as u32 + 1)
}

// A place in a list, where it has one of 32 bits.
fn place_at(at: usize) -> Result<u32, AllocError>
    ensures { IfOk result (λ place. place ≡ at) }
{
    if at > u32::MAX as usize {
        return Err(AllocError);
    }
    Ok(at as u32)
}

impl Templates {
    ghost use Rattle.std.specs.Prelude.{◌≡◌, ◌<◌, [], ◌++◌, IfOk, OnOk, cond, length, map};
    ghost use Rattle.lq_refined_subtyping.specs.Table.Forms.{matrix_view};
    ghost use Rattle.lq_refined_templates.specs.Templates.Cells.{cell_of_shape};
    ghost use Rattle.lq_refined_templates.specs.Templates.Scopes.{with_position};
    ghost use Rattle.lq_generate_fresh.specs.Fresh.Fields.{cells_of_constructors, cells_of_field, cells_of_fields, cells_of_parameters, is_field_again, scope_of_fields, shape_in};
    ghost use Rattle.lq_generate_fresh.specs.Fresh.Views.{constructor_view, field_view, scope_at, scopes_of, shape_if, unknowns_of, IsMade};

    // Adds to a matrix the entry of a place, with an unknown in the scope, where predicates speak of the argument.
    fn add_cell(
        &mut self,
        alloc: Global,
        matrix: &mut Matrix,
        place: Place,
        scope: u64,
        shape: Option<Shape>,
    ) -> Result<(), AllocError>
        requires { scope < length (scopes_of self.old) }
        ensures matrix { OnOk result (matrix_view matrix.new ≡ matrix_view matrix.old
            ++ (cell_of_shape (length (unknowns_of self.old)) (scope_at self.old scope) place.constructor.0 place.field
            place.parameter (shape_if shape)).matrix) }
        ensures made { OnOk result (IsMade self.old self.new
            (cell_of_shape (length (unknowns_of self.old)) (scope_at self.old scope) place.constructor.0 place.field
            place.parameter (shape_if shape)).unknowns) }
    {
        let Some(shape) = shape else {
            return Ok(());
        };
        let field = place_at(place.field)?;
        let parameter = place_at(place.parameter)?;
        let unknown = self.add_unknown(scope, shape)?;
        let parts = Parts::single(alloc, Part::Unknown(unknown, Subst::new(alloc)))?;
        matrix.push(Cell {
            constructor: place.constructor,
            field,
            parameter,
            parts,
        })?;
        Ok(())
    }

    // Adds to a matrix the entries of a recursive field, one for each parameter.
    fn add_parameters(
        &mut self,
        alloc: Global,
        matrix: &mut Matrix,
        constructor: Name,
        field: usize,
        scope: u64,
        shapes: &[Option<Shape>],
    ) -> Result<(), AllocError>
        requires { scope < length (scopes_of self.old) }
        ensures matrix { OnOk result (matrix_view matrix.new ≡ matrix_view matrix.old
            ++ (cells_of_parameters (length (unknowns_of self.old)) (scope_at self.old scope) constructor.0 field 0
            (map shape_if shapes.now)).matrix) }
        ensures made { OnOk result (IsMade self.old self.new
            (cells_of_parameters (length (unknowns_of self.old)) (scope_at self.old scope) constructor.0 field 0
            (map shape_if shapes.now)).unknowns) }
    {
        for at in 0..shapes.len() {
            let place = Place {
                constructor,
                field,
                parameter: at,
            };
            self.add_cell(alloc, matrix, place, scope, shapes[at])?;
        }
        Ok(())
    }

    // The scope with a field as a symbol, where the field isn't the datatype again.
    fn with_field(
        &mut self,
        datatype: Name,
        at: usize,
        field: Field,
        scope: u64,
        shapes: &[Option<Shape>],
    ) -> Result<u64, AllocError>
        requires { scope < length (scopes_of self.old) }
        ensures scope { IfOk result (λ s. scope_at self.new s
            ≡ cond (is_field_again (length shapes.now) (field_view field)) (scope_at self.old scope)
            (with_position at (shape_in datatype.0 (map shape_if shapes.now) (field_view field)) (scope_at self.old scope))) }
        ensures there { IfOk result (λ s. s < length (scopes_of self.new)) }
        ensures made { OnOk result (IsMade self.old self.new []) }
    {
        if is_again(field, shapes.len()) {
            return Ok(scope);
        }
        let symbol = Symbol::Position(position_behind(at)?);
        let added = self.with_symbol(scope, symbol, shape_of(datatype, field, shapes))?;
        Ok(added)
    }

    // The scope of the entries of a constructor: its fields that aren't the datatype again.
    fn scope_of_fields(
        &mut self,
        datatype: Name,
        fields: &[Field],
        shapes: &[Option<Shape>],
    ) -> Result<u64, AllocError>
        ensures scope { IfOk result (λ s. scope_at self.new s
            ≡ scope_of_fields datatype.0 (map shape_if shapes.now) 0 (map field_view fields.now) []) }
        ensures there { IfOk result (λ s. s < length (scopes_of self.new)) }
        ensures made { OnOk result (IsMade self.old self.new []) }
    {
        let mut scope: u64 = 0;
        for at in 0..fields.len() {
            scope = self.with_field(datatype, at, fields[at], scope, shapes)?;
        }
        Ok(scope)
    }

    // Adds to a matrix the entries of a field, where that is the datatype again.
    fn add_field(
        &mut self,
        alloc: Global,
        matrix: &mut Matrix,
        constructor: Name,
        at: usize,
        field: Field,
        scope: u64,
        shapes: &[Option<Shape>],
    ) -> Result<(), AllocError>
        requires { scope < length (scopes_of self.old) }
        ensures matrix { OnOk result (matrix_view matrix.new ≡ matrix_view matrix.old
            ++ (cells_of_field (length (unknowns_of self.old)) (scope_at self.old scope) constructor.0
            (map shape_if shapes.now) at (field_view field)).matrix) }
        ensures made { OnOk result (IsMade self.old self.new
            (cells_of_field (length (unknowns_of self.old)) (scope_at self.old scope) constructor.0
            (map shape_if shapes.now) at (field_view field)).unknowns) }
    {
        if is_again(field, shapes.len()) {
            self.add_parameters(alloc, matrix, constructor, at, scope, shapes)?;
            return Ok(());
        }
        Ok(())
    }

    // Adds to a matrix the entries of a constructor.
    fn add_fields(
        &mut self,
        alloc: Global,
        matrix: &mut Matrix,
        datatype: Name,
        constructor: &Constructor,
        shapes: &[Option<Shape>],
    ) -> Result<(), AllocError>
        ensures matrix { OnOk result (matrix_view matrix.new ≡ matrix_view matrix.old
            ++ (cells_of_fields (length (unknowns_of self.old))
            (scope_of_fields datatype.0 (map shape_if shapes.now) 0 (map field_view constructor.now.fields.items) [])
            constructor.now.name.0 (map shape_if shapes.now) 0 (map field_view constructor.now.fields.items)).matrix) }
        ensures made { OnOk result (IsMade self.old self.new
            (cells_of_fields (length (unknowns_of self.old))
            (scope_of_fields datatype.0 (map shape_if shapes.now) 0 (map field_view constructor.now.fields.items) [])
            constructor.now.name.0 (map shape_if shapes.now) 0 (map field_view constructor.now.fields.items)).unknowns) }
    {
        let fields = constructor.fields.as_slice();
        if !has_again(fields, shapes.len()) {
            return Ok(());
        }
        let scope = self.scope_of_fields(datatype, fields, shapes)?;
        for at in 0..fields.len() {
            self.add_field(
                alloc,
                matrix,
                constructor.name,
                at,
                fields[at],
                scope,
                shapes,
            )?;
        }
        Ok(())
    }

    // The matrix of a template of a datatype with these constructors, where its arguments have these shapes. Its unknowns come behind those
    // that there are.
    #[inline(never)]
    pub(crate) fn matrix_of(
        &mut self,
        alloc: Global,
        datatype: Name,
        constructors: &[Constructor],
        shapes: &[Option<Shape>],
    ) -> Result<Matrix, AllocError>
        ensures matrix { IfOk result (λ m. matrix_view m
            ≡ (cells_of_constructors (length (unknowns_of self.old)) datatype.0 (map shape_if shapes.now)
            (map constructor_view constructors.now)).matrix) }
        ensures made { OnOk result (IsMade self.old self.new
            (cells_of_constructors (length (unknowns_of self.old)) datatype.0 (map shape_if shapes.now)
            (map constructor_view constructors.now)).unknowns) }
    {
        let mut matrix = Matrix::new(alloc);
        for constructor in constructors {
            self.add_fields(alloc, &mut matrix, datatype, constructor, shapes)?;
        }
        Ok(matrix)
    }
}
