// The types of a constructor's fields where its value has a refined type.
ghost use Rattle.std.specs.Prelude.{◌≡◌, ◌<◌, All, IfOk, length};
ghost use Rattle.lq_refined_types.specs.Parts.Part.{parts_by};
ghost use Rattle.lq_refined_types.specs.Types.Refined.{strengthened};
ghost use Rattle.lq_refined_types.specs.Types.Unfolding.{cell, pushed, unfolded};
ghost use Rattle.lq_refined_subtyping.specs.Table.Forms.{each, matrix_view};
ghost use Rattle.lq_refined_subtyping.specs.Table.Unfolding.{field_type, AreFields};
ghost use Rattle.lq_refined_subtyping.specs.Table.Whole.{count_of, refined_at, types_of, Grows};
ghost use Rattle.lq_refined_substitution.specs.Substitution.Views.{scopes_view, subst_view};
ghost use Rattle.lq_text_tree.specs.MlType.{MlTypes};

use crate::table::changes::Change;
use crate::table::forms::{Form, Matrix, Place};
use crate::table::table::RefinedTypes;
use lq_base_names::Name;
use lq_refined_substitution::substitution::{Parts, Scopes, Subst};
use std::alloc::{AllocError, Global};

/// A field of a constructor: the number of its type without refinements, in which the parameters are variables, and whether that is the
/// datatype again with its own parameters.
#[derive(Clone, Copy, Debug)]
pub struct Field {
    pub plain: usize,
    pub is_again: bool,
}

/// A value's datatype: its name, its arguments, its matrix, and what is put for the names of fields.
pub struct Unfolded<'a> {
    pub name: Name,
    pub arguments: &'a [usize],
    pub matrix: &'a Matrix,
    pub by: &'a Subst,
}

impl RefinedTypes {
    // An argument, with what the matrix has for it at a recursive field.
    fn pushed_one(
        &mut self,
        alloc: Global,
        scopes: &Scopes,
        of: &Unfolded<'_>,
        place: Place,
        at: usize,
    ) -> Result<usize, AllocError>
        requires { at < count_of self.old }
        ensures refined { IfOk result (λ n. refined_at (scopes_view scopes.now) self.new n
            ≡ strengthened (parts_by (scopes_view scopes.now) (subst_view of.now.by.now)
            (cell (matrix_view of.now.matrix.now) place.constructor.0 place.field place.parameter))
            (refined_at (scopes_view scopes.now) self.old at)) }
        ensures there { IfOk result (λ n. n < count_of self.new) }
        ensures grows { Grows self.old self.new }
    {
        match of.matrix.cell(place) {
            Some(parts) => {
                let parts = parts.by(alloc, scopes, of.by)?;
                self.strengthened(alloc, scopes, &parts, at)
            }
            None => Ok(at),
        }
    }

    // The arguments, each with what the matrix has for it at a recursive field.
    fn pushed(
        &mut self,
        alloc: Global,
        scopes: &Scopes,
        of: &Unfolded<'_>,
        constructor: Name,
        field: usize,
    ) -> Result<Vec<usize>, AllocError>
        requires { All (λ p. p < count_of self.old) of.now.arguments.now }
        ensures refined { IfOk result (λ made. each (types_of (scopes_view scopes.now) self.new) made.items
            ≡ pushed (scopes_view scopes.now) (subst_view of.now.by.now) (matrix_view of.now.matrix.now)
            constructor.0 field 0 (each (types_of (scopes_view scopes.now) self.old) of.now.arguments.now)) }
        ensures there { IfOk result (λ made. All (λ p. p < count_of self.new) made.items) }
        ensures grows { Grows self.old self.new }
    {
        let mut made = Vec::new(alloc);
        for at in of.arguments {
            let place = Place {
                constructor,
                field,
                parameter: made.len(),
            };
            made.push(self.pushed_one(alloc, scopes, of, place, *at)?)?;
        }
        Ok(made)
    }

    // A field's type: the datatype again, or the field's own with the arguments for its variables.
    fn field_type(
        &mut self,
        alloc: Global,
        scopes: &Scopes,
        of: &Unfolded<'_>,
        constructor: Name,
        at: usize,
        field: Field,
    ) -> Result<usize, AllocError>
        requires arguments { All (λ p. p < count_of self.old) of.now.arguments.now }
        requires field { field.plain < count_of self.old }
        ensures refined { IfOk result (λ n. refined_at (scopes_view scopes.now) self.new n
            ≡ field_type (scopes_view scopes.now) of.now (types_of (scopes_view scopes.now) self.old) constructor.0 at field) }
        ensures there { IfOk result (λ n. n < count_of self.new) }
        ensures grows { Grows self.old self.new }
    {
        if field.is_again {
            let arguments = self.pushed(alloc, scopes, of, constructor, at)?;
            let matrix = of.matrix.copy(alloc)?;
            self.push(Form::Data(of.name, arguments, matrix), Parts::new(alloc))
        } else {
            let arguments = Vec::from_slice(alloc, of.arguments)?;
            self.delay(Change::Instantiated(arguments), field.plain)
        }
    }

    /// The numbers of the types of a constructor's fields, where its value has this datatype: a recursive field has the datatype again, its
    /// arguments with what the matrix has for them there.
    pub fn unfolded(
        &mut self,
        alloc: Global,
        scopes: &Scopes,
        of: &Unfolded<'_>,
        constructor: Name,
        fields: &[Field],
    ) -> Result<Vec<usize>, AllocError>
        requires arguments { All (λ p. p < count_of self.old) of.now.arguments.now }
        requires fields { All (λ f. f.plain < count_of self.old) fields.now }
        ensures refined { IfOk result (λ made. (types : MlTypes)
            → AreFields (types_of (scopes_view scopes.now) self.old) of.now.name.0 (length of.now.arguments.now) fields.now types
            → each (types_of (scopes_view scopes.now) self.new) made.items ≡ unfolded (scopes_view scopes.now)
            (subst_view of.now.by.now) of.now.name.0 (each (types_of (scopes_view scopes.now) self.old) of.now.arguments.now)
            (matrix_view of.now.matrix.now) constructor.0 types) }
        ensures there { IfOk result (λ made. All (λ p. p < count_of self.new) made.items) }
        ensures grows { Grows self.old self.new }
    {
        let mut made = Vec::new(alloc);
        for field in fields {
            let at = made.len();
            made.push(self.field_type(alloc, scopes, of, constructor, at, *field)?)?;
        }
        Ok(made)
    }
}
