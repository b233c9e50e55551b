// The table of distances: an engine of difference rows.
ghost use Rattle.std.specs.Int.{w128};
ghost use Rattle.std.specs.Prelude.{◌≡◌, Bool, true, false, IsTrue, take, FitsSigned, OnOk, OnErr, ℕ, ℤ, pos, List, [], ◌∷◌, ◌++◌, ◌<◌, ◌≤◌, ◌^◌, ◌+◌, ◌-◌, ◌-ℤ◌, length, vec_capacity, max, slice_index, IsOk, unsigned_abs, negsuc, if◌then◌else◌, IfOk, IfErr, IfSome, IfNone};
ghost use Rattle.lq_base_numbers.specs.Rationals.Rational.{whole};
ghost use Rattle.lq_base_numbers.specs.Fractions.Value.{value_of};
ghost use Rattle.lq_logic_rows.specs.Row.{Row, IsRow, AscendsFrom};
ghost use Rattle.lq_logic_rows.specs.Answers.{Last, Held};
ghost use Rattle.lq_prover_differences.specs.Edges.{parts_of, sizes, HasNoTag};
ghost use Rattle.lq_prover_differences.specs.Passes.{vertex_at, values};
ghost use Rattle.lq_prover_differences.specs.Stops.{PastBy};
ghost use Rattle.lq_prover_differences.specs.Table.{AllFit, IsDecided, IsDifference, TermsBelow, IsStanding};
ghost use Rattle.lq_prover_differences.specs.Graphs.{HasRoom, SameRoom, admitted};
ghost use Rattle.lq_prover_differences.specs.Range.{InRange};

use crate::arc::Edge;
use crate::graph::Graph;
use crate::number::difference;
use crate::vertex::Vertex;
use lq_base_numbers::fractions::Frac;
use lq_logic_rows::{Answer, LinearEngine, LinearRow, LinearStop, Mark, Verdict};
use std::alloc::{AllocError, Global};
use std::marker::Model;

/// Difference rows over the terms below a number, decided by potentials.
#[derive(Drop)]
pub struct DistanceTable {
    terms: u64,
    rows: u64,
    edges: Vec<Edge>,
    graph: Graph,
    /// Whether the arcs of the first row that wasn't admitted close a walk whose costs sum to less than 0.
    conflict: bool,
    /// The steps of that walk.
    found: Vec<(u64, bool)>,
    answer: Answer,
}

impl Model for DistanceTable {
    ghost use Rattle.std.specs.Prelude.{vec_capacity};
    ghost use Rattle.lq_prover_differences.specs.Table.{Table, IsTable};

    ghost Value = { Table };

    ghost view = { λ t. record { edges = t.edges.items; vertices = t.graph.vertices.items; conflict = t.conflict; found = t.found.items; answer = t.answer; terms = t.terms; rows = t.rows } };

    ghost invariant = { λ t. IsTable (record { edges = t.edges.items; vertices = t.graph.vertices.items; conflict = t.conflict; found = t.found.items; answer = t.answer; terms = t.terms; rows = t.rows }) t.graph (vec_capacity t.edges) (vec_capacity t.found) };
}

/// The vertices of a difference row's terms: it is read "the second minus the first".
fn ends(parts: &[(u64, i128)]) -> (usize, usize)
    requires difference { IsDifference parts.now }
    requires ascending { AscendsFrom 0 parts.now }
    requires room { TermsBelow usize.MAX parts.now }
    ensures parts { parts_of result.0 result.1 ≡ parts.now }
    ensures below { (n : ℕ) → TermsBelow n parts.now → (result.0 < n + 1) × (result.1 < n + 1) }
{
    match parts {
        [] => (0, 0),
        [(term, coefficient)] => {
            let vertex = *term as usize + 1;
            if *coefficient == 1 {
                (0, vertex)
            } else {
                (vertex, 0)
            }
        }
        [(first, coefficient), (second, _), ..] => {
            let first = *first as usize + 1;
            let second = *second as usize + 1;
            if *coefficient == 1 {
                (second, first)
            } else {
                (first, second)
            }
        }
    }
}

/// Whether the difference of each potential from that of the number 0 can be written.
fn measure(vertices: &[Vertex]) -> Result<(), LinearStop>
    requires { 0 < length vertices.now }
    ensures fit { OnOk result ((v : ℕ) → v < length vertices.now → FitsSigned w128
        (values (vertex_at vertices.now) v -ℤ values (vertex_at vertices.now) 0)) }
    ensures stop { IfErr result (λ stop. (n : ℕ) → InRange (values (vertex_at vertices.now)) n
        → PastBy n stop) }
{
    let base = vertices[0].kept.value;
    for vertex in vertices {
        difference(vertex.kept.value, base)?;
    }
    Ok(())
}

/// The difference of a potential from that of the number 0.
fn from_zero(vertices: &[Vertex], at: usize) -> i128
    requires within { at < length vertices.now }
    requires fits { FitsSigned w128 (values (vertex_at vertices.now) at
        -ℤ values (vertex_at vertices.now) 0) }
    ensures { result ≡ values (vertex_at vertices.now) at -ℤ values (vertex_at vertices.now) 0 }
{
    vertices[at].kept.value - vertices[0].kept.value
}

/// Admits the rows that weren't yet, until the arcs of one close a walk whose costs sum to less than 0.
fn catch_up(
    edges: &[Edge],
    graph: &mut Graph,
    conflict: &mut bool,
    found: &mut Vec<(u64, bool)>,
) -> Result<(), LinearStop>
    requires standing { IsStanding edges.now graph.old conflict.old found.old.items }
    requires no_conflict { conflict.old ≡ false }
    requires room { HasRoom graph.old (length edges.now) }
    requires steps { length graph.old.vertices.items < vec_capacity found.old }
    ensures standing { IsStanding edges.now graph.new conflict.new found.new.items }
    ensures all { OnOk result (conflict.new ≡ false → admitted graph.new ≡ length edges.now) }
    ensures no_conflict { OnErr result (conflict.new ≡ false) }
    ensures left { OnErr result (admitted graph.new < length edges.now) }
    ensures more { admitted graph.old ≤ admitted graph.new }
    ensures vertices { length graph.new.vertices.items ≡ length graph.old.vertices.items }
    ensures room { SameRoom graph.old graph.new }
    ensures capacity { vec_capacity found.new ≡ vec_capacity found.old }
    ensures stop { IfErr result (PastBy (sizes edges.now)) }
{
    loop {
        let at = graph.admitted();
        if at == edges.len() {
            return Ok(());
        }
        graph.make_room();
        if graph.admit(&edges[at], found)? {
            *conflict = true;
            return Ok(());
        }
    }
}

/// Lets a row stand, and admits it where those before it were admitted.
fn stand(
    edges: &mut Vec<Edge>,
    graph: &mut Graph,
    conflict: &mut bool,
    found: &mut Vec<(u64, bool)>,
    edge: Edge,
) -> Result<(), LinearStop>
    requires standing { IsStanding edges.old.items graph.old conflict.old found.old.items }
    requires decided { IsDecided edges.old.items graph.old conflict.old }
    requires from_in { edge.from < length graph.old.vertices.items }
    requires to_in { edge.to < length graph.old.vertices.items }
    requires fresh { HasNoTag edge.tag edges.old.items }
    requires place { length edges.old.items < vec_capacity edges.old }
    requires room { HasRoom graph.old (length edges.old.items + 1) }
    requires steps { length graph.old.vertices.items < vec_capacity found.old }
    ensures standing { IsStanding edges.new.items graph.new conflict.new found.new.items }
    ensures decided { IsDecided edges.new.items graph.new conflict.new }
    ensures added { OnOk result (edges.new.items ≡ edges.old.items ++ edge ∷ []) }
    ensures refused { OnErr result (edges.new.items ≡ edges.old.items) }
    ensures vertices { length graph.new.vertices.items ≡ length graph.old.vertices.items }
    ensures place { vec_capacity edges.new ≡ vec_capacity edges.old }
    ensures room { SameRoom graph.old graph.new }
    ensures capacity { vec_capacity found.new ≡ vec_capacity found.old }
    ensures stop { IfErr result (λ stop. PastBy (sizes (edges.old.items ++ edge ∷ [])) stop) }
{
    let before = edges.len();
    let behind = graph.admitted() < before;
    edges.push_reserved(edge);
    if behind {
        return Ok(());
    }
    match catch_up(edges, graph, conflict, found) {
        Ok(()) => Ok(()),
        Err(stop) => {
            edges.truncate(before);
            Err(stop)
        }
    }
}

/// Keeps so many of the first rows, of which those that were admitted are admitted still, or none.
fn keep(edges: &mut Vec<Edge>, graph: &mut Graph, conflict: &mut bool, rows: usize)
    requires standing { (found : List (ℕ × Bool)) × IsStanding edges.old.items graph.old conflict.old found }
    requires within { rows ≤ length edges.old.items }
    ensures standing { (found : List (ℕ × Bool)) → IsStanding edges.old.items graph.old conflict.old found
        → IsStanding edges.new.items graph.new conflict.new found }
    ensures edges { edges.new.items ≡ take rows edges.old.items }
    ensures vertices { length graph.new.vertices.items ≡ length graph.old.vertices.items }
    ensures place { vec_capacity edges.new ≡ vec_capacity edges.old }
    ensures room { SameRoom graph.old graph.new }
{
    edges.truncate(rows);
    if rows <= graph.admitted() {
        *conflict = false;
        if rows < graph.base {
            graph.clear();
        } else if rows < graph.admitted() {
            graph.back_to(rows - graph.base);
        }
    }
}

/// Keeps so many of the first rows, and admits those of them that aren't admitted any more. That may meet a number past 128 bits: then
/// they stay as they are until the next check.
fn go_back(
    edges: &mut Vec<Edge>,
    graph: &mut Graph,
    conflict: &mut bool,
    found: &mut Vec<(u64, bool)>,
    rows: usize,
)
    requires standing { IsStanding edges.old.items graph.old conflict.old found.old.items }
    requires within { rows ≤ length edges.old.items }
    requires room { HasRoom graph.old (length edges.old.items) }
    requires steps { length graph.old.vertices.items < vec_capacity found.old }
    ensures standing { IsStanding edges.new.items graph.new conflict.new found.new.items }
    ensures decided { IsDecided edges.new.items graph.new conflict.new }
    ensures edges { edges.new.items ≡ take rows edges.old.items }
    ensures vertices { length graph.new.vertices.items ≡ length graph.old.vertices.items }
    ensures place { vec_capacity edges.new ≡ vec_capacity edges.old }
    ensures room { SameRoom graph.old graph.new }
    ensures capacity { vec_capacity found.new ≡ vec_capacity found.old }
{
    keep(edges, graph, conflict, rows);
    if !*conflict {
        let _ = catch_up(edges, graph, conflict, found);
    }
}

/// Admits the rows that weren't yet. Where that gives no conflict, each potential's difference from that of the number 0 can be written.
fn decide(
    edges: &[Edge],
    graph: &mut Graph,
    conflict: &mut bool,
    found: &mut Vec<(u64, bool)>,
) -> Result<(), LinearStop>
    requires standing { IsStanding edges.now graph.old conflict.old found.old.items }
    requires decided { IsDecided edges.now graph.old conflict.old }
    requires some { 0 < length graph.old.vertices.items }
    requires room { HasRoom graph.old (length edges.now) }
    requires steps { length graph.old.vertices.items < vec_capacity found.old }
    ensures known { conflict.old ≡ true → OnOk result (conflict.new ≡ true) × IsOk result }
    ensures standing { IsStanding edges.now graph.new conflict.new found.new.items }
    ensures decided { IsDecided edges.now graph.new conflict.new }
    ensures all { OnOk result (conflict.new ≡ false → admitted graph.new ≡ length edges.now) }
    ensures fit { OnOk result (conflict.new ≡ false → AllFit graph.new.vertices.items) }
    ensures vertices { length graph.new.vertices.items ≡ length graph.old.vertices.items }
    ensures room { SameRoom graph.old graph.new }
    ensures capacity { vec_capacity found.new ≡ vec_capacity found.old }
    ensures stop { IfErr result (PastBy (sizes edges.now)) }
{
    if *conflict {
        return Ok(());
    }
    catch_up(edges, graph, conflict, found)?;
    if *conflict {
        return Ok(());
    }
    measure(&graph.vertices)
}

/// The multiplier of a row that is read forwards, or backwards.
fn sign(forward: bool) -> Frac
    ensures { value_of result ≡ (if forward then whole (pos 1) else whole (negsuc 0)) }
{
    if forward {
        Frac::whole(1)
    } else {
        Frac::whole(-1)
    }
}

impl DistanceTable {
    ghost use Rattle.lq_logic_rows.specs.Answers.{Nothing};
    ghost use Rattle.lq_prover_differences.specs.Table.{table_rows, table_last, table_limits, value_at, constants};

    /// An empty table for rows over the terms below `terms`, of which at most `rows` stand at once. It takes the table's whole memory.
    pub fn new(alloc: Global, terms: u64, rows: u64) -> Result<DistanceTable, AllocError>
        ensures rows { IfOk result (λ table. table_rows table ≡ []) }
        ensures last { IfOk result (λ table. table_last table ≡ Nothing) }
        ensures limits { IfOk result (λ table. table_limits table ≡ terms ∷ rows ∷ []) }
    {
        let Some(count) = (terms as usize).checked_add(1) else {
            return Err(AllocError);
        };
        let Some(steps) = count.checked_add(1) else {
            return Err(AllocError);
        };
        let mut table = DistanceTable {
            terms,
            rows: 0,
            edges: Vec::new(alloc),
            graph: Graph::new(alloc, count)?,
            conflict: false,
            found: Vec::with_capacity(alloc, steps)?,
            answer: Answer::Unasked,
        };
        table.allow(rows)?;
        Ok(table)
    }

    /// Lets at most `rows` rows stand at once, where fewer might until now, and takes the memory for that. Where it lacks, the limit is as
    /// before.
    pub fn allow(&mut self, rows: u64) -> Result<(), AllocError>
        ensures rows { table_rows self.new ≡ table_rows self.old }
        ensures last { table_last self.new ≡ table_last self.old }
        ensures limits { OnOk result (table_limits self.new
            ≡ slice_index (table_limits self.old) 0 ∷ max (slice_index (table_limits self.old) 1) rows ∷ []) }
        ensures refused { OnErr result (table_limits self.new ≡ table_limits self.old) }
    {
        if rows <= self.rows {
            return Ok(());
        }
        let more = (rows as usize).saturating_sub(self.edges.len());
        self.edges.reserve(more)?;
        self.graph.reserve(rows as usize)?;
        self.rows = rows;
        Ok(())
    }

    /// After `Holds`: each value is a whole number, and no value and no difference of two is larger in size than the sizes of the
    /// constants that stand sum to.
    pub fn values_are_near(&self)
        requires { table_last self.now ≡ Held }
        ensures value { (term : ℕ) → term < slice_index (table_limits self.now) 0
            → unsigned_abs (value_at self.now term) ≤ constants (table_rows self.now) }
        ensures difference { (s t : ℕ) → s < slice_index (table_limits self.now) 0
            → t < slice_index (table_limits self.now) 0
            → unsigned_abs (value_at self.now s -ℤ value_at self.now t) ≤ constants (table_rows self.now) }
    {
        let _ = &self.edges;
    }
}

impl LinearEngine for DistanceTable {
    ghost use Rattle.lq_base_numbers.specs.Rationals.Rational.{ℚ};
    ghost use Rattle.lq_logic_rows.specs.Answers.{Conflicted};
    ghost use Rattle.lq_logic_rows.specs.Contradiction.{Solves, IsContradiction};
    ghost use Rattle.lq_prover_differences.specs.Table.{table_rows, table_last, table_limits, table_point, table_multipliers, constants, TakesRow, MayStop};
    ghost use Rattle.lq_logic_rows.specs.declared.limits.TheConstants.{SUM_LIMIT};

    ghost standing = { table_rows };

    ghost handed = { λ table rows. Unit {0} };

    ghost last = { table_last };

    ghost limits = { table_limits };

    ghost takes = { TakesRow };

    ghost may_stop = { MayStop };

    ghost point = { table_point };

    ghost multipliers = { table_multipliers };

    ghost known = { λ table. table.conflict ≡ true };

    fn assert_row(&mut self, row: &LinearRow, tag: u64) -> Result<(), LinearStop> {
        let _ = &self.terms;
        let (from, to) = ends(row.parts());
        let edge = Edge {
            tag,
            from,
            to,
            weight: row.constant(),
            equal: row.equal(),
        };
        match stand(
            &mut self.edges,
            &mut self.graph,
            &mut self.conflict,
            &mut self.found,
            edge,
        ) {
            Ok(()) => {
                self.answer = Answer::Unasked;
                Ok(())
            }
            Err(stop) => {
                self.answer = Answer::GaveUp;
                Err(stop)
            }
        }
    }

    fn mark(&self) -> Mark {
        Mark(self.edges.len() as u64)
    }

    fn back_to(&mut self, mark: Mark) {
        go_back(
            &mut self.edges,
            &mut self.graph,
            &mut self.conflict,
            &mut self.found,
            mark.0 as usize,
        );
        self.answer = Answer::Unasked;
    }

    fn contradicted(&self) -> bool
        ensures known { IsTrue result → self.now.conflict ≡ true }
        ensures contradicts { IsTrue result → (ms : List (ℕ × ℚ)) × IsContradiction (table_rows self.now) ms }
        ensures answered { table_last self.now ≡ Conflicted → IsTrue result }
        ensures decided { result ≡ false → constants (table_rows self.now) < SUM_LIMIT
            → Solves (table_point self.now) (table_rows self.now) }
    {
        self.conflict
    }

    fn check(&mut self) -> Result<Verdict, LinearStop> {
        match decide(
            &self.edges,
            &mut self.graph,
            &mut self.conflict,
            &mut self.found,
        ) {
            Ok(()) => {
                if self.conflict {
                    self.answer = Answer::Contradicted;
                    return Ok(Verdict::Conflict);
                }
                self.answer = Answer::Solved;
                Ok(Verdict::Holds)
            }
            Err(stop) => {
                self.answer = Answer::GaveUp;
                Err(stop)
            }
        }
    }

    fn value(&self, term: u64) -> Frac {
        if term < self.terms {
            Frac::whole(from_zero(&self.graph.vertices, term as usize + 1))
        } else {
            Frac::whole(0)
        }
    }

    fn multiplier(&self, at: usize) -> Option<(u64, Frac)> {
        match self.found.as_slice().get(at) {
            None => None,
            Some(step) => Some((step.0, sign(step.1))),
        }
    }
}
