// Blocks inside of a block.
ghost use Rattle.std.specs.Prelude.{◌≡◌, [], IfOk};
ghost use Rattle.lq_meaning_normal_tree.specs.BlockView.{block_view, lets_view};
ghost use Rattle.lq_meaning_normalize.specs.Pass.Forming.{block_of};
ghost use Rattle.lq_meaning_normalize.specs.Pass.Views.{became, lets_of};
ghost use Rattle.lq_meaning_normalize.specs.Normalize.Frames.{under_parameter};

use crate::normalize::frames::Parameter;
use crate::pass::{Normal, Pass, matched};
use lq_meaning_normal_tree::{Binding, Block};
use std::alloc::{AllocError, Global};
use std::mem;

// Begins a block. The bindings so far, which are around it, are given back.
pub(crate) fn begin_block(pass: &mut Pass) -> Vec<Binding>
    ensures around { lets_view result.items ≡ lets_of pass.old }
    ensures lets { lets_of pass.new ≡ [] }
    ensures next { pass.new.next ≡ pass.old.next }
{
    mem::replace(&mut pass.bindings, Vec::new(pass.alloc))
}

// Ends a block with what its last expression became, and goes on with the bindings around it.
pub(crate) fn end_block(pass: &mut Pass, around: Vec<Binding>, normal: Normal) -> Block
    ensures block { block_view result ≡ block_of (became pass.old normal) }
    ensures lets { lets_of pass.new ≡ lets_view around.items }
    ensures next { pass.new.next ≡ pass.old.next }
{
    let bindings = mem::replace(&mut pass.bindings, around);
    Block {
        bindings,
        last: normal.into_operation(),
    }
}

// A body, which matches its parameter where that has parts.
pub(crate) fn under(alloc: Global, parameter: Parameter, body: Block) -> Result<Block, AllocError>
    ensures { IfOk result (λ b. block_view b ≡ under_parameter parameter (block_view body)) }
{
    let Parameter { local, pattern } = parameter;
    match pattern {
        None => Ok(body),
        Some(pattern) => {
            let last = matched(alloc, local, pattern, body)?;
            let bindings = Vec::new(alloc);
            Ok(Block { bindings, last })
        }
    }
}
