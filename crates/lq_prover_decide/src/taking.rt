// The literals of a case are taken as facts of a path.
ghost use Rattle.std.specs.Prelude.{◌≡◌, [], ◌∷◌, ◌++◌, IfErr, IfOk, IfNone, IfSome, OnOk, length, map};
ghost use Rattle.lq_prover_case.specs.State.PathState.{KeepsHanded, facts_in, objects_in};
ghost use Rattle.lq_prover_case.specs.State.RowState.{terms_of};
ghost use Rattle.lq_prover_proof_tree.specs.Trees.Proves.{Clashes, rows_among};
ghost use Rattle.lq_prover_proof_tree.specs.Trees.TreeView.{clash_of};
ghost use Rattle.lq_prover_decide.specs.Case.{fact_of};
ghost use Rattle.lq_prover_case.specs.Equations.Literals.{literal_fact};
ghost use Rattle.lq_prover_case.specs.Equations.Naming.{AllBelow, AllTold, HasAllSides, HasSides, IsBelow, IsTold, SaysMore, name_in, objects_of};
ghost use Rattle.lq_prover_differences.specs.Stops.{StopsBy};
ghost use Rattle.lq_prover_differences.specs.Table.{constants};

use crate::fact::Fact;
use lq_logic_rows::LinearStop;
use lq_prover_case::equations::{Literal, ObjectTable, take_literal};
use lq_prover_case::state::PathState;
use lq_prover_proof_tree::trees::CaseProof;

/// A fact as a literal.
fn literal_of(fact: &Fact) -> Literal<'_>
    ensures { literal_fact result ≡ fact_of fact.now }
{
    match fact {
        Fact::Row(row) => Literal::Row(row),
        Fact::Flag(flag, value) => Literal::Flag(*flag, *value),
        Fact::Same(left, right, one) => Literal::Same(left, right, *one),
    }
}

/// Takes a literal as the next fact. A clash with it is the answer.
fn take_fact(
    state: &mut PathState,
    objects: &ObjectTable,
    fact: &Fact,
) -> Result<Option<CaseProof>, LinearStop>
    requires sides { HasSides (objects_of objects.now) (fact_of fact.now) }
    requires below { IsBelow (terms_of state.old.rows) (fact_of fact.now) }
    requires count { state.old.objects.count ≡ length (objects_of objects.now) }
    ensures stands { OnOk result (facts_in (name_in (objects_of objects.now)) state.new
        ≡ facts_in (name_in (objects_of objects.now)) state.old ++ fact_of fact.now ∷ []) }
    ensures told { OnOk result (IsTold (objects_of objects.now) (objects_in state.new) (fact_of fact.now)) }
    ensures more { OnOk result (SaysMore (objects_in state.old) (objects_in state.new)) }
    ensures limits { (terms_of state.new.rows ≡ terms_of state.old.rows)
        × (state.new.rows.pivots ≡ state.old.rows.pivots) × (state.new.objects.count ≡ state.old.objects.count) }
    ensures handed { KeepsHanded state.old state.new }
    ensures clash { IfOk result (λ clash. IfSome clash (λ p.
        Clashes (facts_in (name_in (objects_of objects.now)) state.new) (clash_of p))) }
    ensures stop { IfErr result (StopsBy (constants (rows_among (facts_in (name_in (objects_of objects.now)) state.old
        ++ fact_of fact.now ∷ [])))) }
{
    take_literal(state, objects, &literal_of(fact))
}

/// Takes the literals in order. Where some of the first ones clash, this is the answer, and the others aren't taken.
pub(crate) fn take_facts(
    state: &mut PathState,
    objects: &ObjectTable,
    facts: &[Fact],
) -> Result<Option<CaseProof>, LinearStop>
    requires empty { facts_in (name_in (objects_of objects.now)) state.old ≡ [] }
    requires sides { HasAllSides (objects_of objects.now) (map fact_of facts.now) }
    requires below { AllBelow (terms_of state.old.rows) (map fact_of facts.now) }
    requires count { state.old.objects.count ≡ length (objects_of objects.now) }
    ensures stands { IfOk result (λ clash. IfNone clash (facts_in (name_in (objects_of objects.now)) state.new
        ≡ map fact_of facts.now)) }
    ensures told { IfOk result (λ clash. IfNone clash (AllTold (objects_of objects.now) (objects_in state.new)
        (map fact_of facts.now))) }
    ensures limits { (terms_of state.new.rows ≡ terms_of state.old.rows)
        × (state.new.rows.pivots ≡ state.old.rows.pivots) × (state.new.objects.count ≡ state.old.objects.count) }
    ensures handed { KeepsHanded state.old state.new }
    ensures clash { IfOk result (λ clash. IfSome clash (λ p. Clashes (map fact_of facts.now) (clash_of p))) }
    ensures stop { IfErr result (StopsBy (constants (rows_among (map fact_of facts.now)))) }
{
    for fact in facts {
        if let Some(clash) = take_fact(state, objects, fact)? {
            return Ok(Some(clash));
        }
    }
    Ok(None)
}
