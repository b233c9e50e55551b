// What is known of a normal program.
use lq_base_names::{Binder, Name};
use lq_text_qualifiers::sorting::Shape;
use lq_types_table::{TypeNode, TypeTable};

/// What is known of the nodes and the binders of a normal program, by their numbers. Types are numbers of one table.
#[derive(Drop)]
pub struct Notes<'a> {
    pub types: &'a TypeTable,
    /// The type unit: that of each number past the ends.
    pub unit: u32,
    /// The type of each node.
    pub nodes: &'a [u32],
    /// The type of each binder.
    pub binders: &'a [u32],
    /// Where the types for the type variables of each node begin, which end where those of the next one begin. Only at a use of a
    /// generalised name are there any.
    pub starts: &'a [usize],
    pub rows: &'a [u32],
    /// The source name of each binder; one that was made has none.
    pub texts: &'a [Option<Name>],
    /// The source name `v`, which in predicates is the value.
    pub value: Name,
}

impl Notes<'_> {
    ghost use Rattle.std.specs.Prelude.{◌≡◌, ◌<◌, All, IfSome, length};
    ghost use Rattle.std.specs.Option.{option_map};
    ghost use Rattle.lq_refined_templates.specs.Points.Annotation.{argument_name, arguments_at, element_type, is_spoken_of};
    ghost use Rattle.lq_text_qualifiers.specs.Faults.Shapes.{shape_of};
    ghost use Rattle.lq_types_table.specs.Heads.{each};
    ghost use Rattle.lq_types_table.specs.Nodes.{at as type_at};
    ghost use Rattle.lq_generate_reading.specs.Visibility.Notes.{annotation_view, part_of, shape_if, types_in, IsRight};

    /// The type of a node.
    pub fn type_of(&self, node: u32) -> u32
        requires { IsRight self.now }
        ensures is { type_at (types_in self.now) result ≡ (annotation_view self.now).types node }
        ensures there { result < length (types_in self.now) }
    {
        match self.nodes.get(node as usize) {
            Some(number) => *number,
            None => self.unit,
        }
    }

    /// The type of a binder.
    pub fn type_of_binder(&self, binder: Binder) -> u32
        requires { IsRight self.now }
        ensures is { type_at (types_in self.now) result ≡ (annotation_view self.now).names binder.0 }
        ensures there { result < length (types_in self.now) }
    {
        match self.binders.get(binder.0 as usize) {
            Some(number) => *number,
            None => self.unit,
        }
    }

    /// The type of the elements of an array or a map.
    pub fn element_type(&self, number: u32) -> u32
        requires right { IsRight self.now }
        requires there { number < length (types_in self.now) }
        ensures is { type_at (types_in self.now) result ≡ element_type (type_at (types_in self.now) number) }
        ensures there { result < length (types_in self.now) }
    {
        match self.types.node(number) {
            TypeNode::Array(element) | TypeNode::Map(element) => element,
            TypeNode::Int
            | TypeNode::Bool
            | TypeNode::Unit
            | TypeNode::Var(_)
            | TypeNode::Arrow(_, _)
            | TypeNode::Tuple(_)
            | TypeNode::Named(_, _) => self.unit,
        }
    }

    /// The shape of a type, where predicates speak of it.
    pub fn shape_of(&self, number: u32) -> Option<Shape>
        requires { number < length (types_in self.now) }
        ensures { shape_if result ≡ shape_of (type_at (types_in self.now) number) }
    {
        match self.types.node(number) {
            TypeNode::Int => Some(Shape::Int),
            TypeNode::Bool => Some(Shape::Bool),
            TypeNode::Array(_) => Some(Shape::Array),
            TypeNode::Named(name, _) => Some(Shape::Data(name)),
            TypeNode::Unit
            | TypeNode::Var(_)
            | TypeNode::Arrow(_, _)
            | TypeNode::Tuple(_)
            | TypeNode::Map(_) => None,
        }
    }

    /// The source name of a binder; one that was made has none.
    pub fn text(&self, binder: Binder) -> Option<Name>
        ensures { option_map (λ s. s.0) result ≡ (annotation_view self.now).text binder.0 }
    {
        match self.texts.get(binder.0 as usize) {
            Some(text) => *text,
            None => None,
        }
    }

    /// Whether predicates may speak of a binder: one of the source, other than `v`.
    pub fn is_spoken_of(&self, binder: Binder) -> bool
        ensures { result ≡ is_spoken_of (annotation_view self.now) binder.0 }
    {
        match self.text(binder) {
            Some(text) => text.0 != self.value.0,
            None => false,
        }
    }

    /// A parameter as a template names it.
    pub fn argument_name(&self, binder: Binder) -> Option<Binder>
        ensures { option_map (λ x. x.0) result ≡ argument_name (annotation_view self.now) binder.0 }
    {
        if self.is_spoken_of(binder) {
            Some(binder)
        } else {
            None
        }
    }

    // The types for the type variables of a node.
    fn part(&self, node: u32) -> &[u32]
        requires { IsRight self.now }
        ensures is { result.now ≡ part_of self.now node }
        ensures there { All (λ t. t < length (types_in self.now)) result.now }
    {
        let at = node as usize;
        let start = match self.starts.get(at) {
            Some(start) => *start,
            None => return &[],
        };
        let end = match self.starts.get(at + 1) {
            Some(end) => *end,
            None => return &[],
        };
        if start < end {
            &self.rows[start..end]
        } else {
            &[]
        }
    }

    /// The types for the type variables, at a use of a generalised name.
    pub fn arguments(&self, node: u32) -> Option<&[u32]>
        requires { IsRight self.now }
        ensures are { option_map (λ ts. each (type_at (types_in self.now)) ts.now) result
            ≡ (annotation_view self.now).arguments node }
        ensures there { IfSome result (λ ts. All (λ t. t < length (types_in self.now)) ts.now) }
    {
        let part = self.part(node);
        if part.is_empty() { None } else { Some(part) }
    }

    /// The same, where this binder is used: only names of the source are generalised.
    pub fn arguments_at(&self, node: u32, binder: Binder) -> Option<&[u32]>
        requires { IsRight self.now }
        ensures are { option_map (λ ts. each (type_at (types_in self.now)) ts.now) result
            ≡ arguments_at (annotation_view self.now) node binder.0 }
        ensures there { IfSome result (λ ts. All (λ t. t < length (types_in self.now)) ts.now) }
    {
        match self.text(binder) {
            Some(_) => self.arguments(node),
            None => None,
        }
    }
}
