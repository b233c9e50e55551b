// Programs with the types by which the uses of their generalised definitions are instantiated.
ghost use Rattle.std.specs.Prelude.{◌≡◌, IfOk};
ghost use Rattle.lq_types_rules.specs.Typings.Principal.{node_count};
ghost use Rattle.lq_types_infer.specs.Annotation.Whole.{program_of, table_of, types_of};
ghost use Rattle.lq_types_infer.specs.Instantiation.Instances.{AreParts, AreFound};
ghost use Rattle.lq_types_infer.specs.Instantiation.Uses.{uses_of};

use crate::annotation::Annotated;
use crate::instantiation::visiting::Pass;
use lq_types_rules::typings::visits_are_rules;
use lq_types_rules::visits::scoped_visits_are_in;
use std::alloc::{AllocError, Global};

/// A program with its principal annotation, and for each use of a generalised definition the types that stand in it for the variables of
/// the definition's type.
#[derive(Drop)]
pub struct Instantiated {
    annotated: Annotated,
    // the numbers of these types in the table, node by node
    rows: Vec<u32>,
    // where those of each node begin, and at last their end
    starts: Vec<usize>,
    ghost parts: { AreParts rows.items starts.items (node_count (program_of annotated)) },
    ghost found: { ∥ AreFound (table_of annotated) (node_count (program_of annotated)) (types_of annotated)
        (uses_of (program_of annotated)) rows.items starts.items (node_count (program_of annotated)) ∥₁ },
}

/// Finds the types by which the uses of a program's generalised definitions are instantiated.
pub fn instantiate(alloc: Global, annotated: Annotated) -> Result<Instantiated, AllocError>
    ensures { IfOk result (λ i. i.annotated ≡ annotated) }
{
    visits_are_rules();
    scoped_visits_are_in();
    annotated.scoped().items();
    let pass = Pass::over(alloc, &annotated)?;
    Ok(Instantiated {
        annotated,
        rows: pass.rows,
        starts: pass.starts,
    })
}

impl Instantiated {
    ghost use Rattle.std.specs.Prelude.{◌≡◌, ◌<◌, [], length, All};
    ghost use Rattle.lq_types_rules.specs.Typings.Principal.{node_count};
    ghost use Rattle.lq_types_infer.specs.Annotation.Whole.{program_of, table_of, types_of};
    ghost use Rattle.lq_types_infer.specs.Instantiation.Uses.{IsCounted, Instantiates, uses_of};

    /// The program with its annotation.
    pub fn annotated(&self) -> &Annotated
        ensures { result.now ≡ self.now.annotated }
    {
        &self.annotated
    }

    /// The types that stand for variables, by their numbers in the table of the annotation, node by node.
    pub fn rows(&self) -> &[u32]
        ensures { result.now ≡ self.now.rows.items }
    {
        &self.rows
    }

    /// Where the types of each node begin among these, and at last their end.
    pub fn starts(&self) -> &[usize]
        ensures { result.now ≡ self.now.starts.items }
    {
        &self.starts
    }

    /// The types that stand for the variables 0, 1, .. of a generalised definition's type where a node is a use of it, by their numbers
    /// in the table of the annotation; none for a node that is no such use.
    pub fn instance_of(&self, id: u32) -> &[u32]
        requires { id < node_count (program_of self.now.annotated) }
        ensures inside { All (λ r. r < length (table_of self.now.annotated)) result.now }
        ensures counted { All (λ u. u.node ≡ id → IsCounted (node_count (program_of self.now.annotated))
            (types_of self.now.annotated) u result.now) (uses_of (program_of self.now.annotated)) }
        ensures instance { ∥ All (λ u. u.node ≡ id → Instantiates (table_of self.now.annotated)
            (node_count (program_of self.now.annotated)) (types_of self.now.annotated) u result.now)
            (uses_of (program_of self.now.annotated)) ∥₁ }
        ensures unused { All (λ u. u.node ≡ id → ⊥) (uses_of (program_of self.now.annotated)) → result.now ≡ [] }
    {
        let at = id as usize;
        &self.rows[self.starts[at]..self.starts[at + 1]]
    }
}
