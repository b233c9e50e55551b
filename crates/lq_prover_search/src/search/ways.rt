// The ways in which two applications stand.
ghost use Rattle.std.specs.Prelude.{◌≡◌, IfOk, OnOk};
ghost use Rattle.lq_prover_proof_tree.specs.Trees.Proves.{five_ways};
ghost use Rattle.lq_logic_predicates.specs.Comparison.{CanGather};
ghost use Rattle.lq_logic_predicates.specs.Literals.{below_row, equal_row};
ghost use Rattle.lq_logic_predicates.specs.NnfView.{nnf_view, nnfs_view};
ghost use Rattle.lq_logic_predicates.specs.Table.{numbered};
ghost use Rattle.lq_logic_predicates.specs.TableView.{terms_of};
ghost use Rattle.lq_logic_predicates.specs.TermView.{sum_of};
ghost use Rattle.lq_prover_search.specs.Search.Pairs.{AreWays, CanPair, IsNumbered, IsRowReading, IsWay, equal_rows};

use crate::search::applied::Operation;
use lq_logic_predicates::{GatherError, Nnf, Nnfs, Term, TermTable, gather};
use std::alloc::{AllocError, Global};

/// The row that two terms are equal.
fn equal(alloc: Global, left: &Term, right: &Term, table: &mut TermTable) -> Result<Nnf, AllocError>
    requires left { numbered (terms_of table.old) (sum_of left.now) ≡ terms_of table.old }
    requires right { numbered (terms_of table.old) (sum_of right.now) ≡ terms_of table.old }
    requires fits { CanGather (equal_row (sum_of left.now) (sum_of right.now)) }
    ensures same { OnOk result (terms_of table.new ≡ terms_of table.old) }
    ensures row { IfOk result (λ reading. IsRowReading (terms_of table.old)
        (equal_row (sum_of left.now) (sum_of right.now)) (nnf_view reading)) }
{
    match gather(alloc, left, right, 0, true, table) {
        Ok(row) => Ok(Nnf::Row(row)),
        Err(GatherError::Memory) => Err(AllocError),
        Err(GatherError::Past) => unreachable!(),
    }
}

/// The row that a term is at least 1 below another.
fn below(alloc: Global, left: &Term, right: &Term, table: &mut TermTable) -> Result<Nnf, AllocError>
    requires left { numbered (terms_of table.old) (sum_of left.now) ≡ terms_of table.old }
    requires right { numbered (terms_of table.old) (sum_of right.now) ≡ terms_of table.old }
    requires fits { CanGather (below_row (sum_of left.now) (sum_of right.now)) }
    ensures same { OnOk result (terms_of table.new ≡ terms_of table.old) }
    ensures row { IfOk result (λ reading. IsRowReading (terms_of table.old)
        (below_row (sum_of left.now) (sum_of right.now)) (nnf_view reading)) }
{
    match gather(alloc, left, right, 1, false, table) {
        Ok(row) => Ok(Nnf::Row(row)),
        Err(GatherError::Memory) => Err(AllocError),
        Err(GatherError::Past) => unreachable!(),
    }
}

/// The rows that the arguments and the results are equal.
fn all_equal(
    alloc: Global,
    one: Operation<'_>,
    other: Operation<'_>,
    table: &mut TermTable,
) -> Result<Nnf, AllocError>
    requires one { IsNumbered (terms_of table.old) (sum_of one.term.now) (sum_of one.left.now) (sum_of one.right.now) }
    requires other { IsNumbered (terms_of table.old) (sum_of other.term.now) (sum_of other.left.now)
        (sum_of other.right.now) }
    requires fits { CanPair (sum_of one.term.now) (sum_of one.left.now) (sum_of one.right.now)
        (sum_of other.term.now) (sum_of other.left.now) (sum_of other.right.now) }
    ensures same { OnOk result (terms_of table.new ≡ terms_of table.old) }
    ensures way { IfOk result (λ reading. IsWay (terms_of table.old) (equal_rows (sum_of one.entry.term.now)
        (sum_of one.entry.left.now) (sum_of one.entry.right.now) (sum_of other.entry.term.now) (sum_of other.entry.left.now)
        (sum_of other.entry.right.now)) (nnf_view reading)) }
{
    let mut rows = Nnfs::new(alloc)?;
    rows.push(equal(alloc, one.left, other.left, table)?)?;
    rows.push(equal(alloc, one.right, other.right, table)?)?;
    rows.push(equal(alloc, one.term, other.term, table)?)?;
    Ok(Nnf::All(rows))
}

/// The ways in which two applications of one operator stand: the arguments and the results are equal, or a first argument is at least 1
/// below the other, one way round or the other, or a second one.
pub(crate) fn ways_of(
    alloc: Global,
    one: Operation<'_>,
    other: Operation<'_>,
    table: &mut TermTable,
) -> Result<Nnfs, AllocError>
    requires one { IsNumbered (terms_of table.old) (sum_of one.term.now) (sum_of one.left.now) (sum_of one.right.now) }
    requires other { IsNumbered (terms_of table.old) (sum_of other.term.now) (sum_of other.left.now)
        (sum_of other.right.now) }
    requires fits { CanPair (sum_of one.term.now) (sum_of one.left.now) (sum_of one.right.now)
        (sum_of other.term.now) (sum_of other.left.now) (sum_of other.right.now) }
    ensures same { OnOk result (terms_of table.new ≡ terms_of table.old) }
    ensures ways { IfOk result (λ ways. AreWays (terms_of table.old) (five_ways (sum_of one.entry.term.now)
        (sum_of one.entry.left.now) (sum_of one.entry.right.now) (sum_of other.entry.term.now) (sum_of other.entry.left.now)
        (sum_of other.entry.right.now)) (nnfs_view ways)) }
{
    let mut ways = Nnfs::new(alloc)?;
    ways.push(all_equal(alloc, one, other, table)?)?;
    ways.push(below(alloc, one.left, other.left, table)?)?;
    ways.push(below(alloc, other.left, one.left, table)?)?;
    ways.push(below(alloc, one.right, other.right, table)?)?;
    ways.push(below(alloc, other.right, one.right, table)?)?;
    Ok(ways)
}
