// Unknowns given one by one, and copies of patterns.
ghost use Rattle.std.specs.Prelude.{◌≡◌, ◌+◌, length, map, IfOk};
ghost use Rattle.lq_refined_instances.specs.Views.{scopes_view, unknowns_view};
ghost use Rattle.lq_refined_copies.specs.Runs.{runs_view, AreInside};

use lq_refined_instances::{Scopes, Unknown, Unknowns, Visible};
use std::alloc::{AllocError, Global};

/// An unknown given alone, or a copy of each unknown of a pattern, whose scopes this scope completes.
#[derive(Clone, Copy, Debug)]
pub enum Run {
    /// An unknown with its scope.
    One(Unknown),
    /// Copies of all unknowns of a pattern, in their order.
    Copies { pattern: u64, scope: u64 },
}

/// Unknowns by their numbers, with the scopes that they share; some are copies of patterns. A pattern's unknowns have a table of their
/// own, in which a scope may begin with the mark, in the place of which the scope stands at which the pattern is used.
#[derive(Drop)]
pub struct SharedUnknowns {
    pub(crate) scopes: Scopes,
    pub(crate) patterns: Vec<Unknowns>,
    pub(crate) runs: Vec<Run>,
    count: u64,
    ghost inside: { AreInside (scopes_view scopes) (map unknowns_view patterns.items) runs.items },
    ghost counted: { count
        ≡ length (runs_view (scopes_view scopes) (map unknowns_view patterns.items) runs.items) },
}

impl SharedUnknowns {
    ghost use Rattle.std.specs.Prelude.{◌<◌, [], ◌∷◌, ◌++◌, slice_index_or, OnOk, OnErr};
    ghost use Rattle.lq_refined_instances.specs.Scopes.{scope_in};
    ghost use Rattle.lq_refined_instances.specs.Seen.{visible_view};
    ghost use Rattle.lq_refined_instances.specs.Views.{unknown_view};
    ghost use Rattle.lq_refined_copies.specs.Completed.{all_completed};
    ghost use Rattle.lq_refined_copies.specs.Views.{patterns_of, shared_view, table_of};

    /// No unknowns and no patterns, over scopes that there are.
    pub fn over(alloc: Global, scopes: Scopes) -> SharedUnknowns
        ensures table { table_of result ≡ scopes_view scopes }
        ensures unknowns { shared_view result ≡ [] }
        ensures patterns { patterns_of result ≡ [] }
    {
        SharedUnknowns {
            scopes,
            patterns: Vec::new(alloc),
            runs: Vec::new(alloc),
            count: 0,
        }
    }

    /// The scopes that unknowns share.
    pub fn scopes(&self) -> &Scopes
        ensures { result.now ≡ self.now.scopes }
    {
        &self.scopes
    }

    /// The patterns, each with scopes of its own.
    pub fn patterns(&self) -> &[Unknowns]
        ensures { result.now ≡ self.now.patterns.items }
    {
        &self.patterns
    }

    /// The unknowns as they were added.
    pub fn runs(&self) -> &[Run]
        ensures value { result.now ≡ self.now.runs.items }
        // The scope of each is in the table, and its pattern among the patterns.
        ensures inside { AreInside (table_of self.now) (patterns_of self.now) result.now }
    {
        &self.runs
    }

    /// How many unknowns there are, with the copies.
    pub fn len(&self) -> u64
        ensures { result ≡ length (shared_view self.now) }
    {
        self.count
    }

    /// Adds a scope in which all of the parent is visible and this symbol behind it, and answers its number.
    pub fn add_scope(&mut self, parent: u64, visible: Visible) -> Result<u64, AllocError>
        requires { parent < length (table_of self.old) }
        ensures added { OnOk result (table_of self.new ≡ table_of self.old
            ++ (scope_in (table_of self.old) parent ++ visible_view visible ∷ []) ∷ []) }
        ensures number { IfOk result (λ at. at ≡ length (table_of self.old)) }
        ensures kept { OnErr result (table_of self.new ≡ table_of self.old) }
        ensures unknowns { shared_view self.new ≡ shared_view self.old }
        ensures patterns { patterns_of self.new ≡ patterns_of self.old }
    {
        self.scopes.add(parent, visible)
    }

    /// Adds an unknown, and answers its number.
    pub fn push(&mut self, unknown: Unknown) -> Result<u64, AllocError>
        requires { unknown.scope < length (table_of self.old) }
        ensures added { OnOk result (shared_view self.new ≡ shared_view self.old
            ++ unknown_view (table_of self.old) unknown ∷ []) }
        ensures number { IfOk result (λ n. n ≡ length (shared_view self.old)) }
        ensures kept { OnErr result (shared_view self.new ≡ shared_view self.old) }
        ensures table { table_of self.new ≡ table_of self.old }
        ensures patterns { patterns_of self.new ≡ patterns_of self.old }
    {
        let number = self.count;
        let count = sum(number, 1)?;
        self.runs.push(Run::One(unknown))?;
        self.count = count;
        Ok(number)
    }

    /// Adds a pattern, and answers its number. It adds no unknown.
    pub fn add_pattern(&mut self, pattern: Unknowns) -> Result<u64, AllocError>
        ensures added { OnOk result (patterns_of self.new ≡ patterns_of self.old ++ unknowns_view pattern ∷ []) }
        ensures number { IfOk result (λ n. n ≡ length (patterns_of self.old)) }
        ensures kept { OnErr result (patterns_of self.new ≡ patterns_of self.old) }
        ensures unknowns { shared_view self.new ≡ shared_view self.old }
        ensures table { table_of self.new ≡ table_of self.old }
    {
        let number = self.patterns.len() as u64;
        self.patterns.push(pattern)?;
        Ok(number)
    }

    /// Adds a copy of each unknown of a pattern, with this scope in the place of the mark, and answers the number of the first.
    pub fn add_copies(&mut self, pattern: u64, scope: u64) -> Result<u64, AllocError>
        requires pattern { pattern < length (patterns_of self.old) }
        requires scope { scope < length (table_of self.old) }
        ensures added { OnOk result (shared_view self.new ≡ shared_view self.old
            ++ all_completed (scope_in (table_of self.old) scope) (slice_index_or (patterns_of self.old) pattern [])) }
        ensures number { IfOk result (λ n. n ≡ length (shared_view self.old)) }
        ensures kept { OnErr result (shared_view self.new ≡ shared_view self.old) }
        ensures table { table_of self.new ≡ table_of self.old }
        ensures patterns { patterns_of self.new ≡ patterns_of self.old }
    {
        let number = self.count;
        let more = self.patterns[pattern as usize].unknowns.len() as u64;
        let count = sum(number, more)?;
        self.runs.push(Run::Copies { pattern, scope })?;
        self.count = count;
        Ok(number)
    }
}

// The sum of two numbers. Past 64 bits it answers that there is no memory.
fn sum(first: u64, second: u64) -> Result<u64, AllocError>
    ensures { IfOk result (λ n. n ≡ first + second) }
{
    match first.checked_add(second) {
        Some(sum) => Ok(sum),
        None => Err(AllocError),
    }
}
