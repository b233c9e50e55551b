// The values of points.
ghost use Rattle.std.specs.Prelude.{◌≡◌, length};
ghost use Rattle.lq_logic_predicates.specs.TableView.{terms_of};

use indexmap::IndexMap;
use lq_base_numbers::fractions::Frac;
use lq_logic_predicates::{Symbol, Term, TermTable};

/// A fraction for each term of a table, and truth values of flags and classes of objects.
#[derive(Drop)]
pub struct PointValues {
    pub(crate) numbers: Vec<Frac>,
    pub(crate) flags: IndexMap<Symbol, bool>,
    pub(crate) classes: IndexMap<Term, u64>,
    pub(crate) table: TermTable,
    ghost one_each: { length numbers.items ≡ length (terms_of table) },
}

impl PointValues {
    ghost use Rattle.std.specs.Prelude.{◌≡◌, ◌<◌, length, slice_get, Some};
    ghost use Rattle.lq_logic_predicates.specs.TableView.{terms_of};
    ghost use Rattle.lq_logic_predicates.specs.TermView.{sum_of};
    ghost use Rattle.lq_logic_points.specs.Values.{numbers_of, flags_of, classes_of, table_of, flag_value, class_value};

    /// The values of the terms in the order of the table, of flags, and of objects.
    pub fn new(
        numbers: Vec<Frac>,
        flags: IndexMap<Symbol, bool>,
        classes: IndexMap<Term, u64>,
        table: TermTable,
    ) -> PointValues
        requires { length numbers.items ≡ length (terms_of table) }
        ensures numbers { numbers_of result ≡ numbers.items }
        ensures flags { flags_of result ≡ flags.entries }
        ensures classes { classes_of result ≡ classes.entries }
        ensures table { table_of result ≡ terms_of table }
    {
        PointValues {
            numbers,
            flags,
            classes,
            table,
        }
    }

    /// The terms that have the numbers.
    pub fn table(&self) -> &TermTable
        ensures table { terms_of result.now ≡ table_of self.now }
        ensures one_each { length (numbers_of self.now) ≡ length (table_of self.now) }
    {
        &self.table
    }

    /// The value of the term of this number.
    pub fn number(&self, at: u64) -> Frac
        requires { at < length (table_of self.now) }
        ensures { slice_get (numbers_of self.now) at ≡ Some result }
    {
        self.numbers[at as usize]
    }

    /// The truth value of a flag.
    pub fn flag(&self, symbol: Symbol) -> Option<bool>
        ensures { result ≡ flag_value (flags_of self.now) symbol }
    {
        self.flags.get(&symbol).copied()
    }

    /// The class of an object.
    pub fn class(&self, object: &Term) -> Option<u64>
        ensures { result ≡ class_value (classes_of self.now) (sum_of object.now) }
    {
        self.classes.get(object).copied()
    }

    /// The flags with their truth values, in the order in which they were given.
    pub fn flags(&self) -> &IndexMap<Symbol, bool>
        ensures { result.now.entries ≡ flags_of self.now }
    {
        &self.flags
    }

    /// The objects with their classes, in the order in which they were given.
    pub fn classes(&self) -> &IndexMap<Term, u64>
        ensures { result.now.entries ≡ classes_of self.now }
    {
        &self.classes
    }
}
