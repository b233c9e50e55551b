// What is done to a type, done at its top and left to be done inside.
ghost use Rattle.std.specs.Prelude.{◌≡◌, ◌<◌, [], List, All, None, IfNone, IfOk, IfSome, map, slice_get};
ghost use Rattle.lq_refined_types.specs.Parts.Part.{Scopes as ScopeLists, Parts as PartList};
ghost use Rattle.lq_refined_types.specs.Types.Operations.{applied, atom_of, renamed, twin, twin_binder, twin_of, type_by};
ghost use Rattle.lq_refined_types.specs.Types.Refined.{Refined, function, kind, type_variable};
ghost use Rattle.lq_refined_subtyping.specs.Table.Changes.{changed, change_rows, parts_changed, replaced, variable_of};
ghost use Rattle.lq_refined_subtyping.specs.declared.table.changes.Change.TheVariants.{Twinned};
ghost use Rattle.lq_refined_subtyping.specs.Table.Forms.{binder_view, form_rows, form_type, kind_view};
ghost use Rattle.lq_refined_subtyping.specs.Table.Whole.{count_of, refined_at, types_of, Grows, IsNode};
ghost use Rattle.lq_refined_substitution.specs.Substitution.Views.{atom_view, scopes_view, subst_view};

use crate::table::changes::Change;
use crate::table::forms::{Form, Kind};
use crate::table::table::{RefinedTypes, Row};
use lq_base_names::Binder;
use lq_logic_predicates::{Pred, Symbol, Term};
use lq_refined_substitution::substitution::{Atom, Scopes, Subst, after};
use std::alloc::{AllocError, Global};
use std::rc::Rc;

impl RefinedTypes {
    // The variable that a type is.
    fn variable(&self, at: usize) -> Option<u64>
        requires { at < count_of self.now }
        ensures { (scopes : ScopeLists) → result ≡ variable_of (refined_at scopes self.now at) }
    {
        match self.row(at) {
            Row::Node(node) => node.form.variable(),
            Row::Delayed(change, inner) => match change.as_ref() {
                Change::Put(_) | Change::Twin | Change::Twinned(_) | Change::Renumbered(_) => {
                    self.variable(*inner)
                }
                Change::Instantiated(types) => match self.variable(*inner) {
                    Some(variable) => match number_at(types, variable) {
                        Some(chosen) => self.variable(chosen),
                        None => None,
                    },
                    None => None,
                },
            },
        }
    }

    /// What a value of a type is in predicates.
    pub fn kind(&self, at: usize) -> Kind
        requires { at < count_of self.now }
        ensures { (scopes : ScopeLists) → kind_view result ≡ kind (refined_at scopes self.now at) }
    {
        match self.row(at) {
            Row::Node(node) => node.form.kind(),
            Row::Delayed(change, inner) => match change.as_ref() {
                Change::Put(_) | Change::Twin | Change::Twinned(_) | Change::Renumbered(_) => {
                    self.kind(*inner)
                }
                Change::Instantiated(types) => match self.variable(*inner) {
                    Some(variable) => match number_at(types, variable) {
                        Some(chosen) => self.kind(chosen),
                        None => Kind::Other,
                    },
                    None => self.kind(*inner),
                },
            },
        }
    }

    // The type that is put for a type that is a variable.
    fn chosen(&self, change: &Change, at: usize) -> Option<usize>
        requires { at < count_of self.now }
        ensures { (scopes : ScopeLists) → result ≡ replaced change.now (refined_at scopes self.now at) }
    {
        match change {
            Change::Put(_) | Change::Twin | Change::Twinned(_) | Change::Renumbered(_) => None,
            Change::Instantiated(types) => {
                let variable = self.variable(at)?;
                number_at(types, variable)
            }
        }
    }

    // Two types with it done to them, for a function whose name of its argument stays.
    fn changed_pair(
        &mut self,
        change: &Rc<Change>,
        a: usize,
        b: usize,
    ) -> Result<(usize, usize), AllocError>
        requires a { a < count_of self.old }
        requires b { b < count_of self.old }
        requires types { All (λ p. p < count_of self.old) (change_rows change.now.value) }
        ensures a { IfOk result (λ r. (scopes : ScopeLists) → refined_at scopes self.new r.0
            ≡ changed scopes (types_of scopes self.old) change.now.value (refined_at scopes self.old a)) }
        ensures b { IfOk result (λ r. (scopes : ScopeLists) → refined_at scopes self.new r.1
            ≡ changed scopes (types_of scopes self.old) change.now.value (refined_at scopes self.old b)) }
        ensures there_a { IfOk result (λ r. r.0 < count_of self.new) }
        ensures there_b { IfOk result (λ r. r.1 < count_of self.new) }
        ensures grows { Grows self.old self.new }
    {
        let first = self.share(change, a)?;
        let second = self.share(change, b)?;
        Ok((first, second))
    }

    // Types with it done to them.
    fn changed_all(
        &mut self,
        alloc: Global,
        change: &Rc<Change>,
        types: &[usize],
    ) -> Result<Vec<usize>, AllocError>
        requires there { All (λ p. p < count_of self.old) types.now }
        requires types { All (λ p. p < count_of self.old) (change_rows change.now.value) }
        ensures refined { IfOk result (λ made. (scopes : ScopeLists) → map (refined_at scopes self.new) made.items
            ≡ map (λ p. changed scopes (types_of scopes self.old) change.now.value (refined_at scopes self.old p)) types.now) }
        ensures there { IfOk result (λ made. All (λ p. p < count_of self.new) made.items) }
        ensures grows { Grows self.old self.new }
    {
        let mut made = Vec::with_capacity(alloc, types.len())?;
        for at in types {
            made.push(self.share(change, *at)?)?;
        }
        Ok(made)
    }

    /// A function's result with another name of its argument, which is of this kind. It stays where one of the names is missing.
    pub fn renamed(
        &mut self,
        alloc: Global,
        old: Option<Binder>,
        new: Option<Binder>,
        kind: Kind,
        at: usize,
    ) -> Result<usize, AllocError>
        requires { at < count_of self.old }
        ensures refined { IfOk result (λ n. (scopes : ScopeLists) → refined_at scopes self.new n
            ≡ renamed scopes (binder_view old) (binder_view new) (kind_view kind) (refined_at scopes self.old at)) }
        ensures there { IfOk result (λ n. n < count_of self.new) }
        ensures grows { Grows self.old self.new }
    {
        match (old, new) {
            (Some(x), Some(z)) => {
                if x.0 == z.0 {
                    Ok(at)
                } else {
                    self.applied(alloc, Some(x), atom_of(kind, Symbol::Bound(z)), at)
                }
            }
            _ => Ok(at),
        }
    }

    /// A function's result with an atom for its name of the argument, where it has one.
    pub fn applied(
        &mut self,
        alloc: Global,
        name: Option<Binder>,
        atom: Atom,
        at: usize,
    ) -> Result<usize, AllocError>
        requires { at < count_of self.old }
        ensures refined { IfOk result (λ n. (scopes : ScopeLists) → refined_at scopes self.new n
            ≡ applied scopes (binder_view name) (atom_view atom) (refined_at scopes self.old at)) }
        ensures there { IfOk result (λ n. n < count_of self.new) }
        ensures grows { Grows self.old self.new }
    {
        match name {
            Some(x) => {
                let by = Subst::single(alloc, Symbol::Bound(x), atom)?;
                self.delay(Change::Put(by), at)
            }
            None => Ok(at),
        }
    }

    // A function that names its argument by the twin.
    fn twin_function(
        &mut self,
        alloc: Global,
        x: Option<Binder>,
        a: usize,
        b: usize,
    ) -> Result<Form, AllocError>
        requires a { a < count_of self.old }
        requires b { b < count_of self.old }
        ensures refined { IfOk result (λ form. (scopes : ScopeLists) (p : PartList)
            → form_type (types_of scopes self.new) form p ≡ twin scopes (function (binder_view x) (refined_at scopes self.old a) (refined_at scopes self.old b))) }
        ensures there { IfOk result (λ form. All (λ p. p < count_of self.new) (form_rows form)) }
        ensures grows { Grows self.old self.new }
    {
        let kind = self.kind(a);
        let other = twin_binder(x);
        let twin = Rc::new(alloc, Change::Twin)?;
        let (argument, result) = self.changed_pair(&twin, a, b)?;
        let result = self.renamed(alloc, x, other, kind, result)?;
        Ok(Form::Function(other, argument, result))
    }

    // A function's result, whose argument is of this kind and is named by the twin, and then something is put for names; the change is both.
    fn twinned_result(
        &mut self,
        alloc: Global,
        change: &Rc<Change>,
        by: &Subst,
        x: Option<Binder>,
        kind: Kind,
        at: usize,
    ) -> Result<usize, AllocError>
        requires there { at < count_of self.old }
        requires change { change.now.value ≡ Twinned by.now }
        ensures refined { IfOk result (λ n. (scopes : ScopeLists) → refined_at scopes self.new n ≡ type_by scopes (subst_view by.now)
            (renamed scopes (binder_view x) (twin_binder (binder_view x)) (kind_view kind) (twin scopes (refined_at scopes self.old at)))) }
        ensures there { IfOk result (λ n. n < count_of self.new) }
        ensures grows { Grows self.old self.new }
    {
        match renaming(alloc, x, twin_binder(x), kind)? {
            Some(first) => {
                let both = after(alloc, by, &first)?;
                self.delay(Change::Twinned(both), at)
            }
            None => self.share(change, at),
        }
    }

    // A function that names its argument by the twin, and then something is put for names; the change is both.
    fn twinned_function(
        &mut self,
        alloc: Global,
        change: &Rc<Change>,
        by: &Subst,
        x: Option<Binder>,
        a: usize,
        b: usize,
    ) -> Result<Form, AllocError>
        requires a { a < count_of self.old }
        requires b { b < count_of self.old }
        requires change { change.now.value ≡ Twinned by.now }
        ensures refined { IfOk result (λ form. (scopes : ScopeLists) (p : PartList)
            → form_type (types_of scopes self.new) form p ≡ type_by scopes (subst_view by.now)
            (twin scopes (function (binder_view x) (refined_at scopes self.old a) (refined_at scopes self.old b)))) }
        ensures there { IfOk result (λ form. All (λ p. p < count_of self.new) (form_rows form)) }
        ensures grows { Grows self.old self.new }
    {
        let kind = self.kind(a);
        let argument = self.share(change, a)?;
        let result = self.twinned_result(alloc, change, by, x, kind, b)?;
        Ok(Form::Function(twin_binder(x), argument, result))
    }

    // A form with it done to the types inside, so that its type has it done to it.
    fn changed_form(
        &mut self,
        alloc: Global,
        change: &Rc<Change>,
        form: Form,
    ) -> Result<Form, AllocError>
        requires there { All (λ p. p < count_of self.old) (form_rows form) }
        requires types { All (λ p. p < count_of self.old) (change_rows change.now.value) }
        requires outside { (scopes : ScopeLists) (p : PartList) → replaced change.now.value (form_type (types_of scopes self.old) form p) ≡ None }
        ensures refined { IfOk result (λ made. (scopes : ScopeLists) (p : PartList)
            → form_type (types_of scopes self.new) made (parts_changed scopes change.now.value p)
            ≡ changed scopes (types_of scopes self.old) change.now.value (form_type (types_of scopes self.old) form p)) }
        ensures there { IfOk result (λ made. All (λ p. p < count_of self.new) (form_rows made)) }
        ensures grows { Grows self.old self.new }
    {
        match form {
            Form::Int => Ok(Form::Int),
            Form::Bool => Ok(Form::Bool),
            Form::Unit => Ok(Form::Unit),
            Form::Function(x, a, b) => match change.as_ref() {
                Change::Twin => self.twin_function(alloc, x, a, b),
                Change::Twinned(by) => self.twinned_function(alloc, change, by, x, a, b),
                Change::Put(_) | Change::Instantiated(_) | Change::Renumbered(_) => {
                    let (a, b) = self.changed_pair(change, a, b)?;
                    Ok(Form::Function(x, a, b))
                }
            },
            Form::Tuple(types) => Ok(Form::Tuple(self.changed_all(alloc, change, &types)?)),
            Form::Array(element) => Ok(Form::Array(self.share(change, element)?)),
            Form::Data(name, types, matrix) => {
                let types = self.changed_all(alloc, change, &types)?;
                let matrix = change.matrix(alloc, matrix)?;
                Ok(Form::Data(name, types, matrix))
            }
            Form::Map(element) => Ok(Form::Map(self.share(change, element)?)),
            Form::Variable(variable) => Ok(changed_variable(change.as_ref(), variable)),
        }
    }

    // One level of a type that stands so, with it done to the type.
    fn changed(
        &mut self,
        alloc: Global,
        scopes: &Scopes,
        change: &Rc<Change>,
        at: usize,
    ) -> Result<usize, AllocError>
        requires there { at < count_of self.old }
        requires node { IsNode self.old at }
        requires types { All (λ p. p < count_of self.old) (change_rows change.now.value) }
        requires outside { replaced change.now.value (refined_at (scopes_view scopes.now) self.old at) ≡ None }
        ensures refined { IfOk result (λ n. refined_at (scopes_view scopes.now) self.new n
            ≡ changed (scopes_view scopes.now) (types_of (scopes_view scopes.now) self.old) change.now.value
            (refined_at (scopes_view scopes.now) self.old at)) }
        ensures node { IfOk result (λ n. IsNode self.new n) }
        ensures there { IfOk result (λ n. n < count_of self.new) }
        ensures grows { Grows self.old self.new }
    {
        let node = self.node(at);
        let top = change.parts(alloc, scopes, &node.top)?;
        let form = node.form.copy(alloc)?;
        let form = self.changed_form(alloc, change, form)?;
        self.push(form, top)
    }

    /// The number of a type that is this one and stands as one level, under which what is done to types is left to be done inside.
    pub fn expose(&mut self, alloc: Global, scopes: &Scopes, at: usize) -> Result<usize, AllocError>
        requires { at < count_of self.old }
        ensures refined { IfOk result (λ n. refined_at (scopes_view scopes.now) self.new n
            ≡ refined_at (scopes_view scopes.now) self.old at) }
        ensures node { IfOk result (λ n. IsNode self.new n) }
        ensures there { IfOk result (λ n. n < count_of self.new) }
        ensures grows { Grows self.old self.new }
    {
        let Some(delay) = self.delayed(at)? else {
            return Ok(at);
        };
        match self.chosen(delay.change.as_ref(), delay.at) {
            Some(chosen) => self.expose(alloc, scopes, chosen),
            None => {
                let exposed = self.expose(alloc, scopes, delay.at)?;
                self.changed(alloc, scopes, &delay.change, exposed)
            }
        }
    }
}

// The number at a place of a list.
fn number_at(types: &[usize], place: u64) -> Option<usize>
    ensures { result ≡ slice_get types.now place }
{
    types.get(place as usize).copied()
}

// What stands for a symbol of a kind.
pub(crate) fn atom_of(kind: Kind, symbol: Symbol) -> Atom
    ensures { atom_view result ≡ atom_of (kind_view kind) symbol }
{
    match kind {
        Kind::TruthValue => Atom::Pred(Pred::Flag(symbol)),
        Kind::Number | Kind::Object | Kind::Other => Atom::Term(Term::Var(symbol)),
    }
}

// The twin of a binder.
fn twin_of(x: Binder) -> Binder
    ensures { result.0 ≡ twin_of x.0 }
{
    if x.0 < 1 << 31 {
        Binder(x.0 + (1 << 31))
    } else {
        x
    }
}

fn twin_binder(x: Option<Binder>) -> Option<Binder>
    ensures { binder_view result ≡ twin_binder (binder_view x) }
{
    match x {
        Some(x) => Some(twin_of(x)),
        None => None,
    }
}

// What is put for a name of an argument of this kind where another name takes its place; None where it stays.
fn renaming(
    alloc: Global,
    old: Option<Binder>,
    new: Option<Binder>,
    kind: Kind,
) -> Result<Option<Subst>, AllocError>
    ensures none { IfOk result (λ found. IfNone found ((scopes : ScopeLists) (t : Refined)
        → renamed scopes (binder_view old) (binder_view new) (kind_view kind) t ≡ t)) }
    ensures some { IfOk result (λ found. IfSome found (λ by. (scopes : ScopeLists) (t : Refined)
        → renamed scopes (binder_view old) (binder_view new) (kind_view kind) t ≡ type_by scopes (subst_view by) t)) }
{
    match (old, new) {
        (Some(x), Some(z)) => {
            if x.0 == z.0 {
                return Ok(None);
            }
            let by = Subst::single(alloc, Symbol::Bound(x), atom_of(kind, Symbol::Bound(z)))?;
            Ok(Some(by))
        }
        _ => Ok(None),
    }
}

// A variable for which no type is put.
fn changed_variable(change: &Change, variable: u64) -> Form
    requires { replaced change.now (type_variable variable) ≡ None }
    ensures refined { (scopes : ScopeLists) (all made : List Refined) (p : PartList)
        → form_type made result p ≡ changed scopes all change.now (type_variable variable) }
    ensures rows { form_rows result ≡ [] }
{
    match change {
        Change::Put(_) | Change::Twin | Change::Twinned(_) | Change::Renumbered(_) => {
            Form::Variable(variable)
        }
        Change::Instantiated(_) => Form::Unit,
    }
}
