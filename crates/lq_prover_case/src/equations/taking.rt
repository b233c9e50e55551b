// A literal is taken as the next fact of a path.
ghost use Rattle.std.specs.Prelude.{◌≡◌, ℕ, [], ◌∷◌, ◌++◌, IfErr, IfOk, IfSome, OnErr, OnOk, length};
ghost use Rattle.lq_prover_case.specs.State.PathState.{KeepsHanded, facts_in, objects_in};
ghost use Rattle.lq_prover_case.specs.State.RowState.{terms_of};
ghost use Rattle.lq_prover_proof_tree.specs.Trees.Proves.{Clashes, rows_among};
ghost use Rattle.lq_prover_proof_tree.specs.Trees.TreeView.{clash_of};
ghost use Rattle.lq_prover_differences.specs.Stops.{StopsBy};
ghost use Rattle.lq_prover_differences.specs.Table.{constants};
ghost use Rattle.lq_prover_case.specs.Equations.Equating.{Grows};
ghost use Rattle.lq_prover_case.specs.Equations.Literals.{literal_fact};
ghost use Rattle.lq_prover_case.specs.Equations.Naming.{HasSides, IsBelow, IsTold, SaysMore, name_in, objects_of};
ghost use Rattle.lq_logic_predicates.specs.Sum.{Sum};

use crate::equations::literal::Literal;
use crate::equations::object_table::ObjectTable;
use crate::state::PathState;
use lq_logic_rows::LinearStop;
use lq_prover_proof_tree::trees::CaseProof;
use std::alloc::AllocError;

/// Takes a literal as the next fact. A clash with it is the answer.
pub fn take_literal(
    state: &mut PathState,
    objects: &ObjectTable,
    literal: &Literal<'_>,
) -> Result<Option<CaseProof>, LinearStop>
    requires sides { HasSides (objects_of objects.now) (literal_fact literal.now) }
    requires below { IsBelow (terms_of state.old.rows) (literal_fact literal.now) }
    requires count { state.old.objects.count ≡ length (objects_of objects.now) }
    ensures stands { OnOk result (facts_in (name_in (objects_of objects.now)) state.new
        ≡ facts_in (name_in (objects_of objects.now)) state.old ++ literal_fact literal.now ∷ []) }
    ensures grows { OnOk result ((name : ℕ → Sum) → Grows (facts_in name state.old) (facts_in name state.new)) }
    ensures told { OnOk result (IsTold (objects_of objects.now) (objects_in state.new) (literal_fact literal.now)) }
    ensures more { OnOk result (SaysMore (objects_in state.old) (objects_in state.new)) }
    ensures limits { (terms_of state.new.rows ≡ terms_of state.old.rows)
        × (state.new.rows.pivots ≡ state.old.rows.pivots) × (state.new.objects.count ≡ state.old.objects.count) }
    ensures refused { OnErr result ((name : ℕ → Sum) → facts_in name state.new ≡ facts_in name state.old) }
    ensures handed { KeepsHanded state.old state.new }
    ensures clash { IfOk result (λ clash. IfSome clash (λ p.
        Clashes (facts_in (name_in (objects_of objects.now)) state.new) (clash_of p))) }
    ensures stop { IfErr result (StopsBy (constants (rows_among (facts_in (name_in (objects_of objects.now)) state.old
        ++ literal_fact literal.now ∷ [])))) }
{
    match literal {
        Literal::Row(row) => state.take_row(row),
        Literal::Flag(flag, value) => match state.take_flag(*flag, *value) {
            Ok(clash) => Ok(clash),
            Err(AllocError) => Err(LinearStop::Memory),
        },
        Literal::Same(left, right, one) => {
            let left = objects.number(left);
            let right = objects.number(right);
            match state.take_same(left, right, *one) {
                Ok(clash) => Ok(clash),
                Err(AllocError) => Err(LinearStop::Memory),
            }
        }
    }
}
