// What a program is checked over.
ghost use Rattle.std.specs.Prelude.{◌≡◌, ℕ};
ghost use Rattle.lq_generate_operations.specs.Basis.Basis.{equations_at, items_at, names_at, rows_at};

use lq_base_names::Name;
use lq_logic_predicates::Pred;
use lq_refined_substitution::substitution::Scopes;
use lq_refined_subtyping::split::ConstructorFields;

/// By the number of a datatype's name its constructors in the order of their definition, and by the number of a constructor's name its
/// equations, one for each measure of its datatype, of `v` for its value and of `#1`, `#2`, .. for its fields.
#[derive(Debug, Drop)]
pub struct Declared {
    constructors: Vec<Vec<Name>>,
    equations: Vec<Vec<Pred>>,
}

impl Declared {
    /// From the constructors of each datatype and the equations of each constructor, each by the number of its name.
    pub fn new(constructors: Vec<Vec<Name>>, equations: Vec<Vec<Pred>>) -> Declared
        ensures constructors { (d : ℕ) → names_at result d ≡ items_at constructors.items d }
        ensures equations { (c : ℕ) → equations_at result c ≡ items_at equations.items c }
    {
        Declared {
            constructors,
            equations,
        }
    }

    /// The constructors of a datatype in the order of their definition; none of one past the end.
    pub fn constructors_of(&self, datatype: Name) -> &[Name]
        ensures { result.now ≡ names_at self.now datatype.0 }
    {
        match self.constructors.get(datatype.0 as usize) {
            Some(names) => names.as_slice(),
            None => &[],
        }
    }

    /// The equations of a constructor; none of one past the end.
    pub fn equations_of(&self, constructor: Name) -> &[Pred]
        ensures { result.now ≡ equations_at self.now constructor.0 }
    {
        match self.equations.get(constructor.0 as usize) {
            Some(preds) => preds.as_slice(),
            None => &[],
        }
    }
}

/// What a program is checked over: the scopes of the unknowns, the types of constructors' fields, the constructors of each datatype with
/// their equations, and for each point the rows of its templates.
#[derive(Clone, Copy)]
pub struct Basis<'a> {
    pub scopes: &'a Scopes,
    pub fields: &'a ConstructorFields,
    pub declared: &'a Declared,
    pub templates: &'a [Vec<usize>],
}

impl Basis<'_> {
    /// The rows of a point's templates; none of one past the end.
    pub fn rows(&self, point: usize) -> &[usize]
        ensures { result.now ≡ rows_at self.now.templates.now point }
    {
        match self.templates.get(point) {
            Some(rows) => rows.as_slice(),
            None => &[],
        }
    }
}
