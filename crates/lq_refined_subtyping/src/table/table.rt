// The table of refined types.
ghost use Rattle.lq_refined_subtyping.specs.Table.Rows.{AreEarlier};

use crate::table::changes::Change;
use crate::table::forms::{Form, RefinedNode};
use lq_refined_substitution::substitution::Parts;
use std::alloc::{AllocError, Global};
use std::rc::Rc;

/// One level of a type, or something that is done to a type. Rows share what is done.
#[derive(Drop)]
pub(crate) enum Row {
    Node(RefinedNode),
    Delayed(Rc<Change>, usize),
}

/// What is done to which type.
#[derive(Drop)]
pub(crate) struct Delay {
    pub(crate) change: Rc<Change>,
    pub(crate) at: usize,
}

/// Refined types, numbered from 0. Each names earlier ones alone, and what is there stays.
#[derive(Drop)]
pub struct RefinedTypes {
    pub(crate) rows: Vec<Row>,
    ghost earlier: { AreEarlier rows.items },
}

impl RefinedTypes {
    ghost use Rattle.std.specs.Prelude.{◌≡◌, ◌<◌, [], ◌∷◌, ◌++◌, true, min, All, IfOk, IfSome, MatchOption};
    ghost use Rattle.lq_refined_types.specs.Parts.Part.{Scopes as ScopeLists};
    ghost use Rattle.lq_refined_subtyping.specs.Table.Changes.{changed, change_rows};
    ghost use Rattle.lq_refined_subtyping.specs.Table.Forms.{form_rows, form_type, node_type};
    ghost use Rattle.lq_refined_subtyping.specs.Table.Rows.{is_node, row_rows, row_type};
    ghost use Rattle.lq_refined_subtyping.specs.Table.Whole.{count_of, refined_at, types_of, Grows, IsNode};
    ghost use Rattle.lq_refined_substitution.specs.Substitution.Views.{parts_view};

    /// No types.
    pub fn new(alloc: Global) -> RefinedTypes
        ensures { count_of result ≡ 0 }
    {
        RefinedTypes {
            rows: Vec::new(alloc),
        }
    }

    /// How many types there are.
    pub fn len(&self) -> usize
        ensures { result ≡ count_of self.now }
    {
        self.rows.len()
    }

    // One row more, and its number.
    fn add(&mut self, row: Row) -> Result<usize, AllocError>
        requires { All (λ p. p < count_of self.old) (row_rows row) }
        ensures added { IfOk result (λ n. (n ≡ count_of self.old) × (self.new.rows.items ≡ self.old.rows.items ++ row ∷ [])) }
        ensures grows { Grows self.old self.new }
    {
        let number = self.rows.len();
        self.rows.push(row)?;
        Ok(number)
    }

    /// Adds the type of this form over earlier types, with these parts at its top, and answers its number.
    pub fn push(&mut self, form: Form, top: Parts) -> Result<usize, AllocError>
        requires { All (λ p. p < count_of self.old) (form_rows form) }
        ensures refined { IfOk result (λ n. (scopes : ScopeLists)
            → refined_at scopes self.new n ≡ form_type (types_of scopes self.old) form (parts_view top)) }
        ensures node { IfOk result (λ n. IsNode self.new n) }
        ensures there { IfOk result (λ n. n < count_of self.new) }
        ensures grows { Grows self.old self.new }
    {
        self.add(Row::Node(RefinedNode { form, top }))
    }

    /// Adds an earlier type with something done to it, and answers its number. It is done where the type is looked at.
    pub fn delay(&mut self, change: Change, at: usize) -> Result<usize, AllocError>
        requires there { at < count_of self.old }
        requires types { All (λ p. p < count_of self.old) (change_rows change) }
        ensures refined { IfOk result (λ n. (scopes : ScopeLists) → refined_at scopes self.new n
            ≡ changed scopes (types_of scopes self.old) change (refined_at scopes self.old at)) }
        ensures there { IfOk result (λ n. n < count_of self.new) }
        ensures grows { Grows self.old self.new }
    {
        let shared = Rc::new(*self.rows.allocator(), change)?;
        self.share(&shared, at)
    }

    // The same of something that is done to several types. What was left to be done to a type before is put together with it where the two
    // are one change, so that a type which is changed again and again stands as one change of one type.
    pub(crate) fn share(&mut self, change: &Rc<Change>, at: usize) -> Result<usize, AllocError>
        requires there { at < count_of self.old }
        requires types { All (λ p. p < count_of self.old) (change_rows change.now.value) }
        ensures refined { IfOk result (λ n. (scopes : ScopeLists) → refined_at scopes self.new n
            ≡ changed scopes (types_of scopes self.old) change.now.value (refined_at scopes self.old at)) }
        ensures there { IfOk result (λ n. n < count_of self.new) }
        ensures grows { Grows self.old self.new }
    {
        if let Some(delay) = self.delayed(at)? {
            if change.adds_nothing(delay.change.as_ref()) {
                return Ok(at);
            }
            if let Some(both) = change.behind(*self.rows.allocator(), delay.change.as_ref())? {
                let both = Rc::new(*self.rows.allocator(), both)?;
                return self.add(Row::Delayed(both, delay.at));
            }
        }
        let change = change.clone()?;
        self.add(Row::Delayed(change, at))
    }

    /// Lets the types from this number on go; those before it stay.
    pub fn truncate(&mut self, len: usize)
        ensures kept { Grows self.new self.old }
        ensures count { count_of self.new ≡ min len (count_of self.old) }
    {
        self.rows.truncate(len);
    }

    // The row of a number.
    pub(crate) fn row(&self, at: usize) -> &Row
        requires { at < count_of self.now }
        ensures refined { (scopes : ScopeLists) → refined_at scopes self.now at ≡ row_type scopes (types_of scopes self.now) result.now }
        ensures earlier { All (λ p. p < at) (row_rows result.now) }
        ensures node { IsNode self.now at → is_node result.now ≡ true }
        ensures whether { is_node result.now ≡ true → IsNode self.now at }
    {
        &self.rows[at]
    }

    /// One level of a type that stands so. The types inside are earlier ones.
    pub fn node(&self, at: usize) -> &RefinedNode
        requires there { at < count_of self.now }
        requires node { IsNode self.now at }
        ensures refined { (scopes : ScopeLists) → refined_at scopes self.now at ≡ node_type (types_of scopes self.now) result.now }
        ensures earlier { All (λ p. p < at) (form_rows result.now.form) }
    {
        match self.row(at) {
            Row::Node(node) => node,
            Row::Delayed(_, _) => unreachable!(),
        }
    }

    // What is done to which type, where one stands so.
    pub(crate) fn delayed(&self, at: usize) -> Result<Option<Delay>, AllocError>
        requires { at < count_of self.now }
        ensures refined { IfOk result (λ found. MatchOption found (IsNode self.now at) (λ d. (scopes : ScopeLists)
            → refined_at scopes self.now at ≡ changed scopes (types_of scopes self.now) d.change.value (refined_at scopes self.now d.at))) }
        ensures earlier { IfOk result (λ found. IfSome found (λ d. All (λ p. p < at) (d.at ∷ change_rows d.change.value))) }
    {
        match self.row(at) {
            Row::Node(_) => Ok(None),
            Row::Delayed(change, inner) => Ok(Some(Delay {
                change: change.clone()?,
                at: *inner,
            })),
        }
    }
}
