// All pairs of applications of one operator.
ghost use Rattle.std.specs.Prelude.{◌≡◌, ◌<◌, ◌≤◌, ◌+◌, ◌++◌, suc, All, IfOk, IfNone, IfSome, OnOk, length};
ghost use Rattle.std.specs.Option.{option_to_list};
ghost use Rattle.lq_prover_proof_tree.specs.Trees.Proves.{ApplyTwo};
ghost use Rattle.lq_prover_proof_tree.specs.Literals.Gathered.{sizes};
ghost use Rattle.lq_prover_proof_tree.specs.Literals.Parts.{places_from};
ghost use Rattle.lq_logic_points.specs.Agreeing.{HasAllArguments};
ghost use Rattle.lq_logic_predicates.specs.Comparison.{CanGather};
ghost use Rattle.lq_logic_predicates.specs.Literals.{all_pairs as pair_literals};
ghost use Rattle.lq_logic_predicates.specs.Sum.{Sum};
ghost use Rattle.lq_logic_predicates.specs.TableView.{terms_of};
ghost use Rattle.lq_prover_search.specs.Search.Pairs.{AreAllPairs, AreOrdered, ArePairsUpTo, IsOperationAt, IsPair, application_at};
ghost use Rattle.lq_prover_search.specs.Search.SearchPath.{ways_of};
ghost use Rattle.lq_prover_search.specs.Search.Sizes.{most_of_each};

use crate::search::applied::{Operation, applied, is_same};
use crate::search::pair::Pair;
use crate::search::ways::ways_of;
use lq_logic_predicates::TermTable;
use lq_prover_proof_tree::literals::applications;
use std::alloc::{AllocError, Global};

/// The pair of two applications by their places among the applications, where they are of one operator.
fn pair_of(
    alloc: Global,
    terms: &TermTable,
    places: &[u64],
    left: usize,
    right: usize,
    other: Operation<'_>,
    table: &mut TermTable,
) -> Result<Option<Pair>, AllocError>
    requires arguments { HasAllArguments (terms_of terms.now) (terms_of terms.now) }
    requires fits { All CanGather (pair_literals (terms_of terms.now)) }
    requires table { terms_of table.old ≡ terms_of terms.now }
    requires places { places.now ≡ places_from 0 (terms_of terms.now) }
    requires left { left < right }
    requires right { right < length places.now }
    requires other { IsOperationAt (terms_of terms.now) right other }
    ensures same { OnOk result (terms_of table.new ≡ terms_of terms.now) }
    ensures pair { IfOk result (λ found. IfSome found (λ pair. IsPair (terms_of terms.now) pair
        × (pair.left ≡ left + 1) × (pair.right ≡ right + 1))) }
    ensures none { IfOk result (λ found. IfNone found ((s a b t c d : Sum) → application_at (terms_of terms.now) (suc left) s
        → application_at (terms_of terms.now) (suc right) t → ApplyTwo s a b t c d → ⊥)) }
{
    let Some(one) = applied(terms.term(places[left])) else {
        return Ok(None);
    };
    if !is_same(one.operator, other.operator) {
        return Ok(None);
    }
    let ways = ways_of(alloc, one, other, table)?;
    Ok(Some(Pair {
        left: left as u64 + 1,
        right: right as u64 + 1,
        ways,
    }))
}

/// Adds a pair, where there is one.
fn add_pair(pairs: &mut Vec<Pair>, found: Option<Pair>) -> Result<(), AllocError>
    ensures { OnOk result (pairs.new.items ≡ pairs.old.items ++ option_to_list found) }
{
    if let Some(pair) = found {
        pairs.push(pair)?;
    }
    Ok(())
}

/// Adds the pairs of an application with each one before it.
fn add_pairs_with(
    alloc: Global,
    terms: &TermTable,
    places: &[u64],
    right: usize,
    table: &mut TermTable,
    pairs: &mut Vec<Pair>,
) -> Result<(), AllocError>
    requires arguments { HasAllArguments (terms_of terms.now) (terms_of terms.now) }
    requires fits { All CanGather (pair_literals (terms_of terms.now)) }
    requires table { terms_of table.old ≡ terms_of terms.now }
    requires places { places.now ≡ places_from 0 (terms_of terms.now) }
    requires right { right < length places.now }
    ensures same { OnOk result (terms_of table.new ≡ terms_of terms.now) }
    ensures pairs { OnOk result (ArePairsUpTo (terms_of terms.now) right pairs.old.items
        → ArePairsUpTo (terms_of terms.now) (suc right) pairs.new.items) }
{
    let Some(other) = applied(terms.term(places[right])) else {
        return Ok(());
    };
    for left in 0..right {
        let found = pair_of(alloc, terms, places, left, right, other, table)?;
        add_pair(pairs, found)?;
    }
    Ok(())
}

/// All pairs of applications of one of `*`, `/` and `mod` among the terms. The rows of their ways are over the terms, which the table
/// has too; the table is used up.
pub fn all_pairs(
    alloc: Global,
    terms: &TermTable,
    mut table: TermTable,
) -> Result<Vec<Pair>, AllocError>
    requires arguments { HasAllArguments (terms_of terms.now) (terms_of terms.now) }
    requires fits { All CanGather (pair_literals (terms_of terms.now)) }
    requires table { terms_of table ≡ terms_of terms.now }
    ensures pairs { IfOk result (λ pairs. AreAllPairs (terms_of terms.now) pairs.items) }
    ensures ordered { IfOk result (λ pairs. AreOrdered pairs.items) }
    ensures sizes { IfOk result (λ pairs. most_of_each (ways_of pairs.items) ≤ sizes (pair_literals (terms_of terms.now))) }
{
    let places = applications(alloc, terms)?;
    let mut pairs = Vec::new(alloc);
    for right in 0..places.len() {
        add_pairs_with(
            alloc,
            terms,
            places.as_slice(),
            right,
            &mut table,
            &mut pairs,
        )?;
    }
    Ok(pairs)
}
