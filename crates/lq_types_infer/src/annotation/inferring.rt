// The answer of inference for a program.
ghost use Rattle.std.specs.Prelude.{◌≡◌, IfOk, IfErr};
ghost use Rattle.lq_text_walk.specs.Scoped.Whole.{scoped_view};
ghost use Rattle.lq_types_rules.specs.Typings.Inference.{typed, IsInference};
ghost use Rattle.lq_types_infer.specs.Annotation.Errors.{HasTypeError};
ghost use Rattle.lq_types_infer.specs.Annotation.Whole.{program_of, types_of};

use crate::annotation::annotated::Annotated;
use crate::annotation::errors::TypeError;
use crate::inference::{count_nodes, solve_program};
use crate::solution::table_of;
use lq_text_walk::scoped::Scoped;
use std::alloc::Global;

/// A program's principal annotation, or why it has none that is wanted.
pub fn infer(alloc: Global, program: Scoped) -> Result<Annotated, TypeError>
    ensures program { IfOk result (λ a. program_of a ≡ scoped_view program) }
    ensures typed { IfOk result (λ a. IsInference (scoped_view program) (typed (types_of a))) }
    ensures refused { IfErr result (HasTypeError (scoped_view program)) }
{
    let nodes = count_nodes(alloc, &program)?;
    let inferred = solve_program(alloc, &program)?;
    let slots = (nodes as usize + program.binders()) as u32;
    let solved = table_of(alloc, &inferred.system, &inferred.solution, slots)?;
    Annotated::from_solution(alloc, program, nodes, solved.types, solved.rows)
}
