// Environments in which a name has a type.
ghost use Rattle.std.specs.Prelude.{◌≡◌, ◌<◌, [], ◌∷◌, ◌++◌, length, map, IfOk};
ghost use Rattle.lq_refined_types.specs.Parts.Part.{parts_by};
ghost use Rattle.lq_refined_types.specs.Parts.Substitution.{swap};
ghost use Rattle.lq_logic_predicates.specs.declared.symbol.Symbol.TheVariants.{Value as TheValue};
ghost use Rattle.lq_refined_types.specs.Types.Operations.{atom_of};
ghost use Rattle.lq_refined_types.specs.Types.Refined.{kind, top};
ghost use Rattle.lq_refined_subtyping.specs.Table.Forms.{kind_view};
ghost use Rattle.lq_refined_subtyping.specs.Table.Whole.{count_of, refined_at, IsNode};
ghost use Rattle.lq_refined_substitution.specs.Substitution.Views.{atom_view, part_view, scopes_view};
ghost use Rattle.lq_refined_substitution.specs.Implications.Views.{count_of as implication_count, environment_at, environment_lists, implications_of};
ghost use Rattle.lq_refined_subtyping.specs.Contexts.Growing.{HasMore};

use crate::table::{Kind, RefinedTypes};
use lq_logic_predicates::{Pred, Symbol, Term};
use lq_refined_substitution::implications::Implications;
use lq_refined_substitution::substitution::{Atom, Part, Scopes, Subst};
use std::alloc::{AllocError, Global};

/// A name, the type that it has, and the scopes of the unknowns in that.
pub struct TypedName<'a> {
    pub scopes: &'a Scopes,
    pub types: &'a RefinedTypes,
    pub symbol: Symbol,
    pub at: usize,
}

/// The number of an environment in which a name has a type besides what is known in this one: behind its hypotheses stand the parts at the
/// type's top, with the name for the value.
pub fn named(
    alloc: Global,
    list: &mut Implications,
    name: &TypedName<'_>,
    env: u64,
) -> Result<u64, AllocError>
    requires env { env < length (environment_lists list.old) }
    requires there { name.now.at < count_of name.now.types.now }
    requires node { IsNode name.now.types.now name.now.at }
    ensures facts { IfOk result (λ n. environment_at list.new n ≡ environment_at list.old env
        ++ parts_by (scopes_view name.now.scopes.now) (swap TheValue
        (atom_of (kind (refined_at (scopes_view name.now.scopes.now) name.now.types.now name.now.at)) name.now.symbol) ∷ [])
        (top (refined_at (scopes_view name.now.scopes.now) name.now.types.now name.now.at))) }
    ensures there { IfOk result (λ n. n < length (environment_lists list.new)) }
    ensures environments { HasMore (environment_lists list.old) (environment_lists list.new) }
    ensures implications { implications_of list.new ≡ implications_of list.old }
    ensures count { implication_count list.new ≡ implication_count list.old }
{
    let node = name.types.node(name.at);
    let atom = atom_of(node.form.kind(), name.symbol);
    let by = Subst::single(alloc, Symbol::Value, atom)?;
    let mut at = env;
    for part in node.parts() {
        let put = part.by(alloc, name.scopes, &by)?;
        at = list.add_env(at, put)?;
    }
    Ok(at)
}

/// The number of an environment in which these parts hold besides what is known in this one: they stand behind its hypotheses, in their order.
pub fn guarded(
    alloc: Global,
    list: &mut Implications,
    parts: &[Part],
    env: u64,
) -> Result<u64, AllocError>
    requires { env < length (environment_lists list.old) }
    ensures facts { IfOk result (λ n. environment_at list.new n ≡ environment_at list.old env ++ map part_view parts.now) }
    ensures there { IfOk result (λ n. n < length (environment_lists list.new)) }
    ensures environments { HasMore (environment_lists list.old) (environment_lists list.new) }
    ensures implications { implications_of list.new ≡ implications_of list.old }
    ensures count { implication_count list.new ≡ implication_count list.old }
{
    let mut at = env;
    for part in parts {
        let copied = part.copy(alloc)?;
        at = list.add_env(at, copied)?;
    }
    Ok(at)
}

// What stands for a symbol of a kind.
fn atom_of(kind: Kind, symbol: Symbol) -> Atom
    ensures { atom_view result ≡ atom_of (kind_view kind) symbol }
{
    match kind {
        Kind::TruthValue => Atom::Pred(Pred::Flag(symbol)),
        Kind::Number | Kind::Object | Kind::Other => Atom::Term(Term::Var(symbol)),
    }
}
