// Types with more parts at their tops, and the types of values.
ghost use Rattle.std.specs.Prelude.{◌≡◌, ◌<◌, IfOk};
ghost use Rattle.lq_refined_types.specs.Types.Operations.{is_atom, self_type};
ghost use Rattle.lq_refined_types.specs.Types.Refined.{strengthened, with_top};
ghost use Rattle.lq_refined_subtyping.specs.Table.Forms.{kind_view};
ghost use Rattle.lq_refined_subtyping.specs.Table.Whole.{count_of, refined_at, Grows, IsNode};
ghost use Rattle.lq_logic_predicates.specs.PredView.{formula_of};
ghost use Rattle.lq_refined_substitution.specs.Substitution.Views.{atom_view, parts_view, scopes_view};

use crate::table::forms::Kind;
use crate::table::table::RefinedTypes;
use lq_base_names::CompareOp;
use lq_logic_predicates::{Pred, Symbol, Term};
use lq_refined_substitution::substitution::{Atom, Part, Parts, Scopes};
use std::alloc::{AllocError, Global};

impl RefinedTypes {
    /// The number of a type with these parts at its top, where it has a top.
    pub fn with_top(
        &mut self,
        alloc: Global,
        scopes: &Scopes,
        top: Parts,
        at: usize,
    ) -> Result<usize, AllocError>
        requires { at < count_of self.old }
        ensures refined { IfOk result (λ n. refined_at (scopes_view scopes.now) self.new n
            ≡ with_top (parts_view top) (refined_at (scopes_view scopes.now) self.old at)) }
        ensures node { IfOk result (λ n. IsNode self.new n) }
        ensures there { IfOk result (λ n. n < count_of self.new) }
        ensures grows { Grows self.old self.new }
    {
        let exposed = self.expose(alloc, scopes, at)?;
        let form = self.node(exposed).form.copy(alloc)?;
        self.push(form, top)
    }

    /// The number of a type with more parts at its top, where it has a top.
    pub fn strengthened(
        &mut self,
        alloc: Global,
        scopes: &Scopes,
        parts: &Parts,
        at: usize,
    ) -> Result<usize, AllocError>
        requires { at < count_of self.old }
        ensures refined { IfOk result (λ n. refined_at (scopes_view scopes.now) self.new n
            ≡ strengthened (parts_view parts.now) (refined_at (scopes_view scopes.now) self.old at)) }
        ensures node { IfOk result (λ n. IsNode self.new n) }
        ensures there { IfOk result (λ n. n < count_of self.new) }
        ensures grows { Grows self.old self.new }
    {
        let exposed = self.expose(alloc, scopes, at)?;
        let node = self.node(exposed);
        let form = node.form.copy(alloc)?;
        let mut top = node.top.copy(alloc)?;
        top.extend(alloc, parts)?;
        self.push(form, top)
    }

    /// The number of the type of an atom whose type is this one: its top says that the value is the atom's. What is inside stays.
    pub fn self_type(
        &mut self,
        alloc: Global,
        scopes: &Scopes,
        at: usize,
        atom: &Atom,
    ) -> Result<usize, AllocError>
        requires { at < count_of self.old }
        ensures refined { IfOk result (λ n. refined_at (scopes_view scopes.now) self.new n
            ≡ self_type (refined_at (scopes_view scopes.now) self.old at) (atom_view atom.now)) }
        ensures there { IfOk result (λ n. n < count_of self.new) }
        ensures grows { Grows self.old self.new }
    {
        let kind = self.kind(at);
        match kind {
            Kind::Other => Ok(at),
            Kind::Number | Kind::TruthValue | Kind::Object => {
                let part = Part::Known(is_atom(alloc, kind, atom)?);
                let top = Parts::single(alloc, part)?;
                self.with_top(alloc, scopes, top, at)
            }
        }
    }
}

// That a value of a kind is that of the atom.
fn is_atom(alloc: Global, kind: Kind, atom: &Atom) -> Result<Pred, AllocError>
    ensures { IfOk result (λ pred. formula_of pred ≡ is_atom (kind_view kind) (atom_view atom.now)) }
{
    match (kind, atom) {
        (Kind::Number, Atom::Term(term)) => {
            let value = Term::Var(Symbol::Value);
            Ok(Pred::Compare(CompareOp::Eq, value, term.copy(alloc)?))
        }
        (Kind::TruthValue, Atom::Pred(pred)) => {
            let value = Box::new(alloc, Pred::Flag(Symbol::Value))?;
            let copied = Box::new(alloc, pred.copy(alloc)?)?;
            Ok(Pred::Iff(value, copied))
        }
        (Kind::Object, Atom::Term(term)) => {
            let value = Term::Var(Symbol::Value);
            Ok(Pred::Same(value, term.copy(alloc)?))
        }
        (Kind::Number, Atom::Pred(_))
        | (Kind::TruthValue, Atom::Term(_))
        | (Kind::Object, Atom::Pred(_))
        | (Kind::Other, _) => Ok(Pred::True),
    }
}
