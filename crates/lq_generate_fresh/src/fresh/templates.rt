// Refined types with unknowns, and the scopes of the unknowns.

use lq_logic_predicates::Symbol;
use lq_refined_copies::SharedUnknowns;
use lq_refined_instances::{Scopes, Unknown, Visible};
use lq_refined_substitution::substitution::{Part, Parts, Subst};
use lq_refined_subtyping::table::{Form, RefinedTypes};
use lq_text_qualifiers::sorting::Shape;
use std::alloc::{AllocError, Global};

/// Refined types in a table, and their unknowns, each with its scope and its shape.
#[derive(Drop)]
pub struct Templates {
    pub(crate) types: RefinedTypes,
    pub(crate) unknowns: SharedUnknowns,
}

impl Templates {
    ghost use Rattle.std.specs.Prelude.{◌≡◌, ◌<◌, [], ◌∷◌, ◌++◌, All, IfOk, OnOk, length};
    ghost use Rattle.lq_refined_instances.specs.Scopes.{scope_in, without};
    ghost use Rattle.lq_refined_instances.specs.Seen.{hidden_view, visible_view};
    ghost use Rattle.lq_refined_types.specs.Parts.Part.{Scopes as ScopeLists};
    ghost use Rattle.lq_refined_subtyping.specs.Table.Forms.{form_rows, form_type};
    ghost use Rattle.lq_refined_subtyping.specs.Table.Whole.{count_of, refined_at};
    ghost use Rattle.lq_text_qualifiers.specs.Sorting.Views.{shape_view};
    ghost use Rattle.lq_refined_instances.specs.Views.{scopes_view};
    ghost use Rattle.lq_refined_substitution.specs.Substitution.Views.{parts_view};
    ghost use Rattle.lq_refined_templates.specs.Templates.Scopes.{with_symbol};
    ghost use Rattle.lq_generate_fresh.specs.Fresh.Growing.{top_parts, top_unknowns};
    ghost use Rattle.lq_generate_fresh.specs.Fresh.Views.{all_types, scope_at, scopes_of, shape_if, unknowns_of, IsMade};

    /// No types and no unknowns, over scopes that there are.
    pub fn over(alloc: Global, scopes: Scopes) -> Templates
        ensures types { count_of result.types ≡ 0 }
        ensures scopes { scopes_of result ≡ scopes_view scopes }
        ensures unknowns { unknowns_of result ≡ [] }
    {
        Templates {
            types: RefinedTypes::new(alloc),
            unknowns: SharedUnknowns::over(alloc, scopes),
        }
    }

    /// The types.
    pub fn types(&self) -> &RefinedTypes
        ensures { result.now ≡ self.now.types }
    {
        &self.types
    }

    /// The unknowns with their scopes.
    pub fn unknowns(&self) -> &SharedUnknowns
        ensures { result.now ≡ self.now.unknowns }
    {
        &self.unknowns
    }

    /// The types, and the unknowns with their scopes, by themselves.
    pub fn into_parts(self) -> (RefinedTypes, SharedUnknowns)
        ensures types { result.0 ≡ self.types }
        ensures unknowns { result.1 ≡ self.unknowns }
    {
        (self.types, self.unknowns)
    }

    // The number of a scope with one symbol more, where predicates speak of its shape.
    pub(crate) fn with_symbol(
        &mut self,
        scope: u64,
        symbol: Symbol,
        shape: Option<Shape>,
    ) -> Result<u64, AllocError>
        requires { scope < length (scopes_of self.old) }
        ensures scope { IfOk result (λ s. scope_at self.new s ≡ with_symbol symbol (shape_if shape) (scope_at self.old scope)) }
        ensures there { IfOk result (λ s. s < length (scopes_of self.new)) }
        ensures made { OnOk result (IsMade self.old self.new []) }
        ensures kept { self.new.types ≡ self.old.types }
    {
        match shape {
            Some(shape) => {
                let added = self.unknowns.add_scope(scope, Visible { symbol, shape })?;
                Ok(added)
            }
            None => Ok(scope),
        }
    }

    // One unknown more, and its number.
    pub(crate) fn add_unknown(&mut self, scope: u64, shape: Shape) -> Result<u64, AllocError>
        requires { scope < length (scopes_of self.old) }
        ensures number { IfOk result (λ n. n ≡ length (unknowns_of self.old)) }
        ensures made { OnOk result (IsMade self.old self.new ((scope_at self.old scope, shape_view shape) ∷ [])) }
        ensures kept { self.new.types ≡ self.old.types }
    {
        let number = self.unknowns.push(Unknown { scope, shape })?;
        Ok(number)
    }

    // The type of this form with these parts at its top.
    pub(crate) fn push(&mut self, form: Form, top: Parts) -> Result<usize, AllocError>
        requires { All (λ p. p < count_of self.old.types) (form_rows form) }
        ensures refined { IfOk result (λ r. (scopes : ScopeLists) → refined_at scopes self.new.types r
            ≡ form_type (all_types scopes self.old) form (parts_view top)) }
        ensures there { IfOk result (λ r. r < count_of self.new.types) }
        ensures made { OnOk result (IsMade self.old self.new []) }
    {
        let row = self.types.push(form, top)?;
        Ok(row)
    }

    // The type of this form, with an unknown at its top where predicates speak of the shape.
    #[inline(never)]
    pub(crate) fn topped(
        &mut self,
        alloc: Global,
        form: Form,
        scope: u64,
        shape: Option<Shape>,
    ) -> Result<usize, AllocError>
        requires scope { scope < length (scopes_of self.old) }
        requires form { All (λ p. p < count_of self.old.types) (form_rows form) }
        ensures refined { IfOk result (λ r. (scopes : ScopeLists) → refined_at scopes self.new.types r
            ≡ form_type (all_types scopes self.old) form (top_parts (length (unknowns_of self.old)) shape)) }
        ensures there { IfOk result (λ r. r < count_of self.new.types) }
        ensures made { OnOk result (IsMade self.old self.new (top_unknowns (scope_at self.old scope) shape)) }
    {
        match shape {
            Some(shape) => {
                let unknown = self.add_unknown(scope, shape)?;
                let top = Parts::single(alloc, Part::Unknown(unknown, Subst::new(alloc)))?;
                let row = self.types.push(form, top)?;
                Ok(row)
            }
            None => {
                let row = self.types.push(form, Parts::new(alloc))?;
                Ok(row)
            }
        }
    }
}
