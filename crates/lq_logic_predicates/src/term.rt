// Terms, their equality and their hashes.
ghost use Rattle.std.specs.Prelude.{◌≡◌, ◌↔◌, IsTrue, IfOk};

use crate::symbol::Symbol;
use lq_base_names::Name;
use std::alloc::{AllocError, Global};
use std::hash::{Hash, Hasher};

/// A term. The argument of a length or of a measure is an object, every other term a whole number.
#[derive(Debug, Drop)]
pub enum Term {
    /// A whole number alone.
    Whole(i128),
    /// The value of a name.
    Var(Symbol),
    /// The negation.
    Neg(Box<Term>),
    /// The sum.
    Add(Box<Term>, Box<Term>),
    /// The left one less the right one.
    Sub(Box<Term>, Box<Term>),
    /// The product.
    Mul(Box<Term>, Box<Term>),
    /// The quotient, rounded toward 0; 0 where the divisor is 0.
    Div(Box<Term>, Box<Term>),
    /// The remainder, 0 or of the dividend's sign; 0 where the divisor is 0.
    Mod(Box<Term>, Box<Term>),
    /// The length of an array.
    Length(Box<Term>),
    /// The measure of this name, of a value of a datatype.
    Measure(Name, Box<Term>),
}

impl Term {
    ghost use Rattle.lq_logic_predicates.specs.Sum.{same};
    ghost use Rattle.lq_logic_predicates.specs.TermView.{sum_of};
    ghost use Rattle.std.specs.Prelude.{fold};
    ghost use Rattle.lq_logic_predicates.specs.Hashed.{writes_of};
    ghost use Rattle.lq_logic_predicates.specs.Table.{literal_of};

    /// An equal term.
    #[cycle(copy)]
    pub fn copy(&self, alloc: Global) -> Result<Term, AllocError>
        ensures { IfOk result (λ term. sum_of term ≡ sum_of self.now) }
    {
        match self {
            Term::Whole(n) => Ok(Term::Whole(*n)),
            Term::Var(x) => Ok(Term::Var(*x)),
            Term::Neg(a) => Ok(Term::Neg(a.boxed(alloc)?)),
            Term::Add(a, b) => Ok(Term::Add(a.boxed(alloc)?, b.boxed(alloc)?)),
            Term::Sub(a, b) => Ok(Term::Sub(a.boxed(alloc)?, b.boxed(alloc)?)),
            Term::Mul(a, b) => Ok(Term::Mul(a.boxed(alloc)?, b.boxed(alloc)?)),
            Term::Div(a, b) => Ok(Term::Div(a.boxed(alloc)?, b.boxed(alloc)?)),
            Term::Mod(a, b) => Ok(Term::Mod(a.boxed(alloc)?, b.boxed(alloc)?)),
            Term::Length(a) => Ok(Term::Length(a.boxed(alloc)?)),
            Term::Measure(name, a) => Ok(Term::Measure(*name, a.boxed(alloc)?)),
        }
    }

    #[cycle(copy)]
    fn boxed(&self, alloc: Global) -> Result<Box<Term>, AllocError>
        ensures { IfOk result (λ b. sum_of b.value ≡ sum_of self.now) }
    {
        let copied = self.copy(alloc)?;
        Ok(Box::new(alloc, copied)?)
    }

    // The number that a literal is.
    pub(crate) fn literal(&self) -> Option<i128>
        ensures { result ≡ literal_of (sum_of self.now) }
    {
        match self {
            Term::Whole(n) => Some(*n),
            Term::Var(_)
            | Term::Neg(_)
            | Term::Add(_, _)
            | Term::Sub(_, _)
            | Term::Mul(_, _)
            | Term::Div(_, _)
            | Term::Mod(_, _)
            | Term::Length(_)
            | Term::Measure(_, _) => None,
        }
    }

    // Whether the two are one term.
    fn is_same(&self, other: &Term) -> bool
        ensures { result ≡ same (sum_of self.now) (sum_of other.now) }
    {
        match (self, other) {
            (Term::Whole(n), Term::Whole(m)) => *n == *m,
            (Term::Var(x), Term::Var(y)) => is_same_symbol(*x, *y),
            (Term::Neg(a), Term::Neg(b)) => a.is_same(b),
            (Term::Add(a, b), Term::Add(c, d)) => a.is_same(c) && b.is_same(d),
            (Term::Sub(a, b), Term::Sub(c, d)) => a.is_same(c) && b.is_same(d),
            (Term::Mul(a, b), Term::Mul(c, d)) => a.is_same(c) && b.is_same(d),
            (Term::Div(a, b), Term::Div(c, d)) => a.is_same(c) && b.is_same(d),
            (Term::Mod(a, b), Term::Mod(c, d)) => a.is_same(c) && b.is_same(d),
            (Term::Length(a), Term::Length(b)) => a.is_same(b),
            (Term::Measure(f, a), Term::Measure(g, b)) => *f == *g && a.is_same(b),
            _ => false,
        }
    }

    // Feeds the term to a hasher, each form under a number of its own.
    fn feed<H: Hasher>(&self, state: &mut H)
        ensures { state.new ≡ fold H.write state.old (writes_of (sum_of self.now)) }
    {
        match self {
            Term::Whole(n) => {
                state.write_u8(0);
                state.write_i128(*n);
            }
            Term::Var(x) => {
                state.write_u8(1);
                feed_symbol(*x, state);
            }
            Term::Neg(a) => {
                state.write_u8(2);
                a.feed(state);
            }
            Term::Add(a, b) => {
                state.write_u8(3);
                a.feed(state);
                b.feed(state);
            }
            Term::Sub(a, b) => {
                state.write_u8(4);
                a.feed(state);
                b.feed(state);
            }
            Term::Mul(a, b) => {
                state.write_u8(5);
                a.feed(state);
                b.feed(state);
            }
            Term::Div(a, b) => {
                state.write_u8(6);
                a.feed(state);
                b.feed(state);
            }
            Term::Mod(a, b) => {
                state.write_u8(7);
                a.feed(state);
                b.feed(state);
            }
            Term::Length(a) => {
                state.write_u8(8);
                a.feed(state);
            }
            Term::Measure(name, a) => {
                state.write_u8(9);
                state.write_u32(name.0);
                a.feed(state);
            }
        }
    }
}

impl PartialEq for Term {
    ghost use Rattle.lq_logic_predicates.specs.Sum.{same};
    ghost use Rattle.lq_logic_predicates.specs.TermView.{sum_of};
    ghost use Rattle.lq_logic_predicates.specs.SameLaws.{same_partial_laws};

    ghost eq = { λ a b. same (sum_of a) (sum_of b) };

    ghost laws = { same_partial_laws };

    fn eq(&self, other: &Term) -> bool {
        self.is_same(other)
    }
}

impl Eq for Term {
    ghost use Rattle.lq_logic_predicates.specs.SameLaws.{same_laws};

    ghost laws = { same_laws };
}

impl Hash for Term {
    ghost use Rattle.lq_logic_predicates.specs.TermView.{sum_of};
    ghost use Rattle.lq_logic_predicates.specs.Hashed.{writes_of, writes-same};

    ghost hash_input = { λ t. writes_of (sum_of t) };

    ghost respects_eq = { λ a b h. writes-same (sum_of a) (sum_of b) h };

    fn hash<H: Hasher>(&self, state: &mut H) {
        self.feed(state);
    }
}

ghost use Rattle.std.specs.Prelude.{fold};
ghost use Rattle.lq_logic_predicates.specs.Sum.{same_symbol};
ghost use Rattle.lq_logic_predicates.specs.Hashed.{symbol_writes};

fn feed_symbol<H: Hasher>(x: Symbol, state: &mut H)
    ensures { state.new ≡ fold H.write state.old (symbol_writes x) }
{
    match x {
        Symbol::Value => state.write_u8(10),
        Symbol::Bound(name) => {
            state.write_u8(11);
            state.write_u32(name.0);
        }
        Symbol::Position(at) => {
            state.write_u8(12);
            state.write_u32(at);
        }
    }
}

fn is_same_symbol(x: Symbol, y: Symbol) -> bool
    ensures { result ≡ same_symbol x y }
{
    x == y
}

/// Terms in a row.
#[derive(Debug, Drop)]
pub struct Terms {
    pub(crate) items: Vec<Term>,
}

impl Terms {
    ghost use Rattle.std.specs.Prelude.{◌≡◌, IfOk, [], ◌∷◌, ◌++◌, length, slice_get, OnOk, OnErr};
    ghost use Rattle.std.specs.Option.{option_copied};
    ghost use Rattle.lq_logic_predicates.specs.TermView.{term_items};

    /// No terms.
    pub fn new(alloc: Global) -> Result<Terms, AllocError>
        ensures { IfOk result (λ terms. term_items terms ≡ []) }
    {
        Ok(Terms {
            items: Vec::new(alloc),
        })
    }

    /// How many terms there are.
    pub fn len(&self) -> usize
        ensures { result ≡ length (term_items self.now) }
    {
        self.items.len()
    }

    /// The term at an index, and None past the last one.
    pub fn get(&self, at: usize) -> Option<&Term>
        ensures { option_copied result ≡ slice_get (term_items self.now) at }
    {
        self.items.get(at)
    }

    /// Adds a term at the end. Where memory is refused, the terms stay as they were.
    pub fn push(&mut self, term: Term) -> Result<(), AllocError>
        ensures ok { OnOk result (term_items self.new ≡ term_items self.old ++ term ∷ []) }
        ensures err { OnErr result (term_items self.new ≡ term_items self.old) }
    {
        self.items.push(term)?;
        Ok(())
    }
}
