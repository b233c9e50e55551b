// The walk over a simple type that makes its template. It goes as deep as the type is; what isn't inlined keeps its frames small.
use crate::fresh::matrix::position_behind;
use crate::fresh::simple::{Given, first_name, later_names, shape_at, shapes_at};
use crate::fresh::templates::Templates;
use lq_base_names::{Binder, Name};
use lq_logic_predicates::Symbol;
use lq_refined_subtyping::table::Form;
use lq_text_qualifiers::sorting::Shape;
use lq_types_table::TypeNode;
use std::alloc::{AllocError, Global};

impl Templates {
    ghost use Rattle.std.specs.Prelude.{◌≡◌, ℕ, ◌<◌, List, [], All, IfOk, OnOk, length, map};
    ghost use Rattle.lq_refined_types.specs.Parts.Part.{Scopes as ScopeLists};
    ghost use Rattle.lq_refined_subtyping.specs.Table.Forms.{binder_view};
    ghost use Rattle.lq_refined_subtyping.specs.Table.Whole.{count_of, refined_at};
    ghost use Rattle.lq_refined_templates.specs.Templates.Fresh.{fresh};
    ghost use Rattle.lq_refined_templates.specs.Templates.Scopes.{with_argument};
    ghost use Rattle.lq_text_tree.specs.MlType as ml;
    ghost use Rattle.lq_text_tree.specs.Types.{Signature};
    ghost use Rattle.lq_types_table.specs.Heads.{each};
    ghost use Rattle.lq_types_table.specs.Nodes.{at as type_at};
    ghost use Rattle.lq_types_table.specs.Whole.{types_of};
    ghost use Rattle.lq_generate_fresh.specs.Fresh.Views.{scope_at, scopes_of, shape_if, unknowns_of, Describes, IsGrown, IsMade};
    ghost use Rattle.lq_generate_fresh.specs.Fresh.Walking.{arguments_wanted, components_wanted, form_wanted, template_wanted, AreTemplates, IsForm, IsTemplate};

    // The scope with a function's name of its argument, where it has one.
    fn with_argument(
        &mut self,
        scope: u64,
        name: Option<Binder>,
        shape: Option<Shape>,
    ) -> Result<u64, AllocError>
        requires { scope < length (scopes_of self.old) }
        ensures scope { IfOk result (λ s. scope_at self.new s
            ≡ with_argument (binder_view name) (shape_if shape) (scope_at self.old scope)) }
        ensures there { IfOk result (λ s. s < length (scopes_of self.new)) }
        ensures made { OnOk result (IsMade self.old self.new []) }
    {
        match name {
            Some(name) => {
                let added = self.with_symbol(scope, Symbol::Bound(name), shape)?;
                Ok(added)
            }
            None => Ok(scope),
        }
    }

    // The template of a type, the top of which has a scope of its own.
    #[cycle(walk)]
    fn template(
        &mut self,
        alloc: Global,
        given: &Given<'_>,
        at: u32,
        names: &[Option<Binder>],
        inner: u64,
        outer: u64,
    ) -> Result<usize, AllocError>
        requires type_there { at < length (types_of given.now.types.now) }
        requires inner { inner < length (scopes_of self.old) }
        requires outer { outer < length (scopes_of self.old) }
        ensures { IfOk result (λ r. IsTemplate given.now.datatypes.now self.old self.new r
            (template_wanted (length (unknowns_of self.old)) (scope_at self.old inner) (scope_at self.old outer)
            (map binder_view names.now) (type_at (types_of given.now.types.now) at))) }
    {
        let form = self.form(alloc, given, at, names, inner)?;
        let row = self.topped(alloc, form, outer, shape_at(given.types, at))?;
        Ok(row)
    }

    // The form of the template of a type, whose unknowns come behind those that there are.
    #[cycle(walk)]
    #[inline(never)]
    pub(crate) fn form(
        &mut self,
        alloc: Global,
        given: &Given<'_>,
        at: u32,
        names: &[Option<Binder>],
        scope: u64,
    ) -> Result<Form, AllocError>
        requires type_there { at < length (types_of given.now.types.now) }
        requires scope { scope < length (scopes_of self.old) }
        ensures { IfOk result (λ f. IsForm given.now.datatypes.now self.old self.new f
            (form_wanted (length (unknowns_of self.old)) (scope_at self.old scope)
            (map binder_view names.now) (type_at (types_of given.now.types.now) at))) }
    {
        match given.types.node(at) {
            TypeNode::Int => Ok(Form::Int),
            TypeNode::Bool => Ok(Form::Bool),
            TypeNode::Unit => Ok(Form::Unit),
            TypeNode::Var(variable) => Ok(Form::Variable(variable as u64)),
            TypeNode::Arrow(argument, value) => {
                let form = self.function(alloc, given, argument, value, names, scope)?;
                Ok(form)
            }
            TypeNode::Tuple(parts) => {
                let components = self.components(alloc, given, parts, scope)?;
                Ok(Form::Tuple(components))
            }
            TypeNode::Array(element) => {
                let element = self.template(alloc, given, element, &[], scope, scope)?;
                Ok(Form::Array(element))
            }
            TypeNode::Named(name, parts) => {
                let form = self.data(alloc, given, name, parts, scope)?;
                Ok(form)
            }
            TypeNode::Map(element) => {
                let keyed = self.with_symbol(scope, Symbol::Position(0), Some(Shape::Int))?;
                let element = self.template(alloc, given, element, &[], scope, keyed)?;
                Ok(Form::Map(element))
            }
        }
    }

    // The form of the template of a function.
    #[cycle(walk)]
    #[inline(never)]
    fn function(
        &mut self,
        alloc: Global,
        given: &Given<'_>,
        argument: u32,
        value: u32,
        names: &[Option<Binder>],
        scope: u64,
    ) -> Result<Form, AllocError>
        requires argument { argument < length (types_of given.now.types.now) }
        requires value { value < length (types_of given.now.types.now) }
        requires scope { scope < length (scopes_of self.old) }
        ensures { IfOk result (λ f. IsForm given.now.datatypes.now self.old self.new f
            (form_wanted (length (unknowns_of self.old)) (scope_at self.old scope) (map binder_view names.now)
            (ml.arrow (type_at (types_of given.now.types.now) argument) (type_at (types_of given.now.types.now) value)))) }
    {
        let first = self.template(alloc, given, argument, &[], scope, scope)?;
        let name = first_name(names);
        let shape = shape_at(given.types, argument);
        let named = self.with_argument(scope, name, shape)?;
        let later = later_names(names);
        let second = self.template(alloc, given, value, later, named, named)?;
        Ok(Form::Function(name, first, second))
    }

    // The form of the template of a datatype with these arguments.
    #[cycle(walk)]
    #[inline(never)]
    fn data(
        &mut self,
        alloc: Global,
        given: &Given<'_>,
        name: Name,
        parts: &[u32],
        scope: u64,
    ) -> Result<Form, AllocError>
        requires parts { All (λ p. p < length (types_of given.now.types.now)) parts.now }
        requires scope { scope < length (scopes_of self.old) }
        ensures { IfOk result (λ f. IsForm given.now.datatypes.now self.old self.new f
            (form_wanted (length (unknowns_of self.old)) (scope_at self.old scope) []
            (ml.named name.0 (each (type_at (types_of given.now.types.now)) parts.now)))) }
    {
        let arguments = self.arguments(alloc, given, parts, scope)?;
        let shapes = shapes_at(alloc, given.types, parts)?;
        let constructors = given.datatypes.of(name);
        let matrix = self.matrix_of(alloc, name, constructors, shapes.as_slice())?;
        Ok(Form::Data(name, arguments, matrix))
    }

    // The templates of types, each alone, as those of a datatype's arguments. Their unknowns come behind those that there are.
    #[cycle(walk)]
    #[inline(never)]
    pub(crate) fn arguments(
        &mut self,
        alloc: Global,
        given: &Given<'_>,
        parts: &[u32],
        scope: u64,
    ) -> Result<Vec<usize>, AllocError>
        requires parts { All (λ p. p < length (types_of given.now.types.now)) parts.now }
        requires scope { scope < length (scopes_of self.old) }
        ensures { IfOk result (λ made. AreTemplates given.now.datatypes.now self.old self.new made.items
            (arguments_wanted (length (unknowns_of self.old)) (scope_at self.old scope)
            (each (type_at (types_of given.now.types.now)) parts.now))) }
    {
        let mut made = Vec::new(alloc);
        for at in 0..parts.len() {
            let row = self.template(alloc, given, parts[at], &[], scope, scope)?;
            made.push(row)?;
        }
        Ok(made)
    }

    // The templates of a tuple's components: the top of each may speak of those before it.
    #[cycle(walk)]
    #[inline(never)]
    fn components(
        &mut self,
        alloc: Global,
        given: &Given<'_>,
        parts: &[u32],
        scope: u64,
    ) -> Result<Vec<usize>, AllocError>
        requires parts { All (λ p. p < length (types_of given.now.types.now)) parts.now }
        requires scope { scope < length (scopes_of self.old) }
        ensures { IfOk result (λ made. AreTemplates given.now.datatypes.now self.old self.new made.items
            (components_wanted (length (unknowns_of self.old)) (scope_at self.old scope)
            (each (type_at (types_of given.now.types.now)) parts.now))) }
    {
        let mut made = Vec::new(alloc);
        let mut top = scope;
        for at in 0..parts.len() {
            let row = self.template(alloc, given, parts[at], &[], scope, top)?;
            made.push(row)?;
            let shape = shape_at(given.types, parts[at]);
            top = self.with_symbol(top, Symbol::Position(position_behind(at)?), shape)?;
        }
        Ok(made)
    }

    // The fresh template of a type of the table in a scope, with these names of its arguments where it is a function that is written as such.
    // Its unknowns come behind those that there are.
    pub(crate) fn fresh(
        &mut self,
        alloc: Global,
        given: &Given<'_>,
        at: u32,
        names: &[Option<Binder>],
        scope: u64,
    ) -> Result<usize, AllocError>
        requires type_there { at < length (types_of given.now.types.now) }
        requires scope { scope < length (scopes_of self.old) }
        ensures refined { IfOk result (λ r. (g : Signature) (ordered : ℕ → List ℕ) → Describes given.now.datatypes.now g ordered
            → (scopes : ScopeLists) → refined_at scopes self.new.types r
            ≡ (fresh g ordered (length (unknowns_of self.old)) (scope_at self.old scope) (map binder_view names.now)
            (type_at (types_of given.now.types.now) at)).type) }
        ensures there { IfOk result (λ r. r < count_of self.new.types) }
        ensures made { OnOk result ((g : Signature) (ordered : ℕ → List ℕ) → Describes given.now.datatypes.now g ordered
            → IsMade self.old self.new
            (fresh g ordered (length (unknowns_of self.old)) (scope_at self.old scope) (map binder_view names.now)
            (type_at (types_of given.now.types.now) at)).unknowns) }
        ensures grown { OnOk result (IsGrown self.old self.new) }
    {
        let row = self.template(alloc, given, at, names, scope, scope)?;
        Ok(row)
    }
}
