// Hypotheses that stand while goals are asked.
ghost use Rattle.std.specs.Prelude.{◌≡◌, IfErr, IfNone, IfOk, IfSome, OnOk, OnSome, [], ℕ, length};
ghost use Rattle.lq_prover_case.specs.State.PathState.{HasHanded, KeepsHanded, facts_in};
ghost use Rattle.lq_prover_case.specs.State.RowState.{terms_of as row_terms};
ghost use Rattle.lq_prover_proof_tree.specs.Trees.Path.{nothing, taken};
ghost use Rattle.lq_prover_proof_tree.specs.Trees.Proves.{Proves};
ghost use Rattle.lq_prover_proof_tree.specs.Trees.TreeView.{tree_view};
ghost use Rattle.lq_prover_case.specs.Equations.Equating.{numbering_by};
ghost use Rattle.lq_logic_rows.specs.Row.{Row};
ghost use Rattle.lq_logic_predicates.specs.NnfView.{nnf_view};
ghost use Rattle.lq_logic_predicates.specs.Reading.{Reading};
ghost use Rattle.lq_logic_predicates.specs.Sum.{Sum};
ghost use Rattle.lq_prover_valid.specs.declared.standing.Standing.{Standing};
ghost use Rattle.lq_prover_valid.specs.Standing.{BeginsWith, CanGoBack, IfOpen, IfProved, IsStanding, StandsAgain, path_on};
ghost use Rattle.lq_prover_search.specs.Search.Scope.{IsWithin};
ghost use Rattle.lq_prover_search.specs.Search.SearchPath.{AreGiven, EndsMet, IsBack, IsTaken, scope_of, ways_of};
ghost use Rattle.lq_prover_search.specs.Search.Sizes.{most_of_each};
ghost use Rattle.lq_prover_search.specs.Search.Stopping.{ReachesFrom, StopsFrom, most_on};

use lq_logic_predicates::Nnf;
use lq_logic_rows::LinearStop;
use lq_prover_case::state::PathState;
use lq_prover_proof_tree::trees::ProofTree;
use lq_prover_search::search::{
    Counts, Givens, SearchPath, Searched, search_reading, take_reading,
};
use std::alloc::{AllocError, Global};

/// Readings that stand while goals are asked: their facts and choices on a path, over the terms, objects, flags and pairs that are given. Each
/// was taken once, whatever number of goals is asked.
#[derive(Drop)]
pub struct Standing<'a> {
    givens: Givens<'a>,
    path: SearchPath<'a>,
}

/// What asking a goal comes to.
#[derive(Drop)]
pub enum Asked<'a> {
    /// What stands and the goal's reading can't all hold, by the tree. The same readings stand again.
    Proved(ProofTree, Standing<'a>),
    /// Nothing is left to split, and the values of the path are a point.
    Open(Ended<'a>),
}

/// The path with which a question ended, on which nothing is left to split. The readings that stood before the question begin it.
#[derive(Drop)]
pub struct Ended<'a> {
    givens: Givens<'a>,
    pub(crate) path: SearchPath<'a>,
    before: Counts,
}

impl<'a> Ended<'a> {
    /// The path, whose values are a point.
    pub fn path(&self) -> &SearchPath<'a>
        ensures { result.now ≡ self.now.path }
    {
        &self.path
    }

    /// The readings that stood before the question stand again, for the next goal.
    pub fn again(self) -> Standing<'a>
        requires { CanGoBack self }
        ensures { (goal : Reading Row) (old : Standing) → IsStanding old → BeginsWith goal old self.entry
            → StandsAgain goal old result }
    {
        let Ended {
            givens,
            mut path,
            before,
        } = self;
        path.reopen(before);
        Standing { givens, path }
    }
}

/// A state without facts.
fn state_of(alloc: Global, givens: &Givens<'_>, limit: u64) -> Result<PathState, AllocError>
    ensures facts { IfOk result (λ s. (name : ℕ → Sum) → facts_in name s ≡ []) }
    ensures terms { IfOk result (λ s. row_terms s.rows ≡ length (scope_of givens.now).terms) }
    ensures count { IfOk result (λ s. s.objects.count ≡ length (scope_of givens.now).objects) }
    ensures limit { IfOk result (λ s. s.rows.pivots ≡ limit) }
    ensures handed { IfOk result (λ s. HasHanded s []) }
{
    let Ok(count) = u32::try_from(givens.objects.len()) else {
        return Err(AllocError);
    };
    PathState::new(alloc, givens.terms.len(), limit, count)
}

impl<'a> Standing<'a> {
    /// Nothing stands. A check makes at most `limit` pivots.
    pub fn new(alloc: Global, givens: Givens<'a>, limit: u64) -> Result<Standing<'a>, AllocError>
        requires given { AreGiven (scope_of givens) givens.pairs.now }
        ensures standing { IfOk result IsStanding }
        ensures givens { IfOk result (λ s. s.givens ≡ givens.entry) }
        ensures nothing { IfOk result (λ s. path_on s ≡ nothing) }
        ensures limit { IfOk result (λ s. s.path.state.rows.pivots ≡ limit) }
        ensures handed { IfOk result (λ s. HasHanded s.path.state []) }
        ensures sizes { IfOk result (λ s. most_on (scope_of givens.entry) s.path
            ≡ most_of_each (ways_of givens.entry.pairs.now)) }
    {
        let state = state_of(alloc, &givens, limit)?;
        let path = SearchPath::new(alloc, state, givens.pairs)?;
        Ok(Standing { givens, path })
    }

    /// Lets a reading stand behind the others, without a search. Where it clashes with them the answer is a tree that proves their path with it
    /// taken, and the others stand as before. After a stop nothing is known of what stands.
    pub fn assume(
        &mut self,
        alloc: Global,
        reading: &'a Nnf,
    ) -> Result<Option<ProofTree>, LinearStop>
        requires standing { IsStanding self.old }
        requires within { IsWithin (scope_of self.old.givens) (nnf_view reading.now) }
        ensures standing { OnOk result (IsStanding self.new) }
        ensures givens { self.new.givens ≡ self.old.givens }
        ensures taken { IfOk result (λ clash. IfNone clash
            (IsTaken (scope_of self.old.givens) (nnf_view reading.now) self.old.path self.new.path)) }
        ensures clash { IfOk result (λ clash. IfSome clash (λ t. Proves (numbering_by (scope_of self.old.givens).terms)
            (taken (path_on self.old) (nnf_view reading.now)) (tree_view t))) }
        ensures back { IfOk result (λ clash. OnSome clash (IsBack self.old.path self.new.path)) }
        ensures handed { OnOk result (KeepsHanded self.old.path.state self.new.path.state) }
        ensures stop { IfErr result (StopsFrom (nnf_view reading.now) (scope_of self.old.givens)
            self.old.givens.pairs.now self.old.path) }
    {
        let givens = self.givens;
        let before = self.path.counts();
        match take_reading(alloc, &givens, &mut self.path, reading)? {
            Some(leaf) => {
                self.path.back_to(before);
                Ok(Some(leaf))
            }
            None => Ok(None),
        }
    }

    /// Whether all that stands can hold with the reading of a negated goal.
    pub fn ask(self, alloc: Global, goal: &'a Nnf) -> Result<Asked<'a>, LinearStop>
        requires standing { IsStanding self }
        requires within { IsWithin (scope_of self.givens) (nnf_view goal.now) }
        ensures tree { IfOk result (λ asked. IfProved asked (λ t s. Proves (numbering_by (scope_of self.entry.givens).terms)
            (taken (path_on self.entry) (nnf_view goal.now)) (tree_view t))) }
        ensures again { IfOk result (λ asked. IfProved asked (λ t s. StandsAgain (nnf_view goal.now) self.entry s)) }
        ensures back { IfOk result (λ asked. IfProved asked (λ t s. IsBack self.entry.path s.path)) }
        ensures met { IfOk result (λ asked. IfOpen asked (λ e. EndsMet (scope_of self.entry.givens)
            self.entry.givens.pairs.now (taken (path_on self.entry) (nnf_view goal.now)) e.path)) }
        ensures reached { IfOk result (λ asked. IfOpen asked (λ e. ReachesFrom (nnf_view goal.now)
            (scope_of self.entry.givens) self.entry.givens.pairs.now self.entry.path e.path)) }
        ensures begins { IfOk result (λ asked. IfOpen asked (BeginsWith (nnf_view goal.now) self.entry)) }
        ensures can_go_back { IfOk result (λ asked. IfOpen asked CanGoBack) }
        ensures stop { IfErr result (StopsFrom (nnf_view goal.now) (scope_of self.entry.givens)
            self.entry.givens.pairs.now self.entry.path) }
    {
        let Standing { givens, path } = self;
        let before = path.counts();
        let searched = search_reading(alloc, &givens, path, goal)?;
        let Searched {
            tree,
            path: mut met,
        } = searched;
        match tree {
            Some(tree) => {
                met.back_to(before);
                Ok(Asked::Proved(tree, Standing { givens, path: met }))
            }
            None => Ok(Asked::Open(Ended {
                givens,
                path: met,
                before,
            })),
        }
    }
}
