// One level of a refined type.
ghost use Rattle.std.specs.Prelude.{◌≡◌, ◌==◌, ◌&&◌, List, map, IfOk, OnOk, OnErr, MatchOption, [], ◌∷◌, ◌++◌};
ghost use Rattle.lq_refined_types.specs.Parts.Part.{Parts as PartList};
ghost use Rattle.lq_refined_types.specs.Types.Refined.{Refined, kind, top};
ghost use Rattle.lq_refined_types.specs.Types.Unfolding.{cell};
ghost use Rattle.lq_refined_subtyping.specs.Table.Changes.{variable_of};
ghost use Rattle.lq_refined_substitution.specs.Substitution.Views.{part_view, parts_view};
ghost use Rattle.lq_refined_subtyping.specs.Table.Forms.{cell_view, form_rows, form_type, kind_view, matrix_view, node_type};

use lq_base_names::{Binder, Name};
use lq_refined_substitution::substitution::{Part, Parts};
use std::alloc::{AllocError, Global};

/// What a value of a type is in predicates.
#[derive(Clone, Copy, Debug, PartialEq, Eq)]
pub enum Kind {
    Number,
    TruthValue,
    Object,
    /// Predicates don't speak of it.
    Other,
}

/// An entry of a matrix: the parts of a parameter at a recursive field of a constructor, both counted from 0.
#[derive(Debug, Drop)]
pub struct Cell {
    pub constructor: Name,
    pub field: u32,
    pub parameter: u32,
    pub parts: Parts,
}

/// A place in a matrix: a parameter at a recursive field of a constructor, both counted from 0.
#[derive(Clone, Copy, Debug)]
pub struct Place {
    pub constructor: Name,
    pub field: usize,
    pub parameter: usize,
}

/// What the values of a datatype's parameters have inside a value, beside what the arguments say.
#[derive(Debug, Drop)]
pub struct Matrix {
    pub(crate) items: Vec<Cell>,
}

impl Matrix {
    /// No entries.
    pub fn new(alloc: Global) -> Matrix
        ensures { matrix_view result ≡ [] }
    {
        Matrix {
            items: Vec::new(alloc),
        }
    }

    /// Adds an entry behind the others. Where memory is refused, they stay as they were.
    pub fn push(&mut self, cell: Cell) -> Result<(), AllocError>
        ensures ok { OnOk result (matrix_view self.new ≡ matrix_view self.old ++ cell_view cell ∷ []) }
        ensures err { OnErr result (matrix_view self.new ≡ matrix_view self.old) }
    {
        self.items.push(cell)?;
        Ok(())
    }

    /// The entries in their order.
    pub fn as_slice(&self) -> &[Cell]
        ensures { map cell_view result.now ≡ matrix_view self.now }
    {
        self.items.as_slice()
    }

    /// The parts at a place, where there are any.
    pub fn cell(&self, place: Place) -> Option<&Parts>
        ensures { MatchOption result
            (cell (matrix_view self.now) place.constructor.0 place.field place.parameter ≡ [])
            (λ parts. parts_view parts.now ≡ cell (matrix_view self.now) place.constructor.0 place.field place.parameter) }
    {
        for cell in &self.items {
            if cell.is_at(place) {
                return Some(&cell.parts);
            }
        }
        None
    }

    /// Equal entries in the same order.
    pub fn copy(&self, alloc: Global) -> Result<Matrix, AllocError>
        ensures { IfOk result (λ made. matrix_view made ≡ matrix_view self.now) }
    {
        let mut items = Vec::new(alloc);
        for cell in &self.items {
            items.push(cell.copy(alloc)?)?;
        }
        Ok(Matrix { items })
    }
}

impl Cell {
    // Whether it has this place.
    fn is_at(&self, place: Place) -> bool
        ensures { result ≡ (self.now.constructor.0 == place.constructor.0
            && (self.now.field == place.field && self.now.parameter == place.parameter)) }
    {
        self.constructor.0 == place.constructor.0
            && self.field as usize == place.field
            && self.parameter as usize == place.parameter
    }

    fn copy(&self, alloc: Global) -> Result<Cell, AllocError>
        ensures { IfOk result (λ made. cell_view made ≡ cell_view self.now) }
    {
        Ok(Cell {
            constructor: self.constructor,
            field: self.field,
            parameter: self.parameter,
            parts: self.parts.copy(alloc)?,
        })
    }
}

/// What a refined type is at its top, but for the parts there. The types inside are numbers of a table.
#[derive(Debug, Drop)]
pub enum Form {
    Int,
    Bool,
    Unit,
    /// A function, which may name its argument.
    Function(Option<Binder>, usize, usize),
    Tuple(Vec<usize>),
    Array(usize),
    /// A datatype with its arguments.
    Data(Name, Vec<usize>, Matrix),
    /// A map from whole numbers.
    Map(usize),
    Variable(u64),
}

impl Form {
    /// The same form over the same types.
    pub fn copy(&self, alloc: Global) -> Result<Form, AllocError>
        ensures same { IfOk result (λ made. (all : List Refined) (p : PartList)
            → form_type all made p ≡ form_type all self.now p) }
        ensures rows { IfOk result (λ made. form_rows made ≡ form_rows self.now) }
    {
        match self {
            Form::Int => Ok(Form::Int),
            Form::Bool => Ok(Form::Bool),
            Form::Unit => Ok(Form::Unit),
            Form::Function(x, a, b) => Ok(Form::Function(*x, *a, *b)),
            Form::Tuple(types) => Ok(Form::Tuple(Vec::from_slice(alloc, types)?)),
            Form::Array(element) => Ok(Form::Array(*element)),
            Form::Data(name, types, matrix) => Ok(Form::Data(
                *name,
                Vec::from_slice(alloc, types)?,
                matrix.copy(alloc)?,
            )),
            Form::Map(element) => Ok(Form::Map(*element)),
            Form::Variable(variable) => Ok(Form::Variable(*variable)),
        }
    }

    /// What a value of the type is in predicates.
    pub fn kind(&self) -> Kind
        ensures { (all : List Refined) (p : PartList) → kind_view result ≡ kind (form_type all self.now p) }
    {
        match self {
            Form::Int => Kind::Number,
            Form::Bool => Kind::TruthValue,
            Form::Array(_) | Form::Data(_, _, _) => Kind::Object,
            Form::Unit
            | Form::Function(_, _, _)
            | Form::Tuple(_)
            | Form::Map(_)
            | Form::Variable(_) => Kind::Other,
        }
    }

    // The variable that the type is.
    pub(crate) fn variable(&self) -> Option<u64>
        ensures { (all : List Refined) (p : PartList) → result ≡ variable_of (form_type all self.now p) }
    {
        match self {
            Form::Variable(variable) => Some(*variable),
            Form::Int
            | Form::Bool
            | Form::Unit
            | Form::Function(_, _, _)
            | Form::Tuple(_)
            | Form::Array(_)
            | Form::Data(_, _, _)
            | Form::Map(_) => None,
        }
    }
}

/// One level of a refined type: its form, and the parts at its top, which count where such a form has a top.
#[derive(Debug, Drop)]
pub struct RefinedNode {
    pub form: Form,
    pub top: Parts,
}

impl RefinedNode {
    /// The parts at the top of the type; there are none where such a form has no top.
    pub fn parts(&self) -> &[Part]
        ensures { (all : List Refined) → map part_view result.now ≡ top (node_type all self.now) }
    {
        match self.form {
            Form::Int | Form::Bool | Form::Array(_) | Form::Data(_, _, _) | Form::Map(_) => {
                self.top.as_slice()
            }
            Form::Unit | Form::Function(_, _, _) | Form::Tuple(_) | Form::Variable(_) => &[],
        }
    }
}
