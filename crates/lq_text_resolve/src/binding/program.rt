// Whole programs.
ghost use Rattle.std.specs.Prelude.{◌≡◌, ◌<◌, ◌≤◌, ◌^◌, length, IfOk};
ghost use Rattle.lq_text_tree.specs.Texts.{program_view};
ghost use Rattle.lq_text_resolve.specs.Binding.Machine.{first_machine};
ghost use Rattle.lq_text_resolve.specs.Binding.Making.{program_made};
ghost use Rattle.lq_text_resolve.specs.Binding.States.{machine_of};
ghost use Rattle.lq_text_resolve.specs.Binding.Whole.{bound_view, nodes_made};

use crate::binding::resolver::Resolver;
use lq_base_names::{Binder, Name, NameTable};
use lq_text_scope::{Scope, first_constructors};
use lq_text_tree::{Item, Program};
use lq_text_walk::walk::Walk;
use std::alloc::{AllocError, Global};

/// The greatest number of binders of a program.
pub const BINDER_LIMIT: usize = 0x8000_0000;

/// The definitions of a program with their names bound, and the source name of each binder.
#[derive(Drop)]
pub struct Bound {
    pub items: Vec<Item<Binder>>,
    /// A binder that was made for a parameter has no source name.
    pub sources: Vec<Option<Name>>,
}

impl<'a> Resolver<'a> {
    fn new(alloc: Global, names: &'a NameTable) -> Result<Resolver<'a>, AllocError>
        ensures machine { IfOk result (λ r. machine_of r ≡ first_machine) }
        ensures names { IfOk result (λ r. r.names.now ≡ names.now) }
    {
        Ok(Resolver {
            alloc,
            names,
            variables: Scope::new(alloc),
            constructors: first_constructors(alloc)?,
            next: 0,
            sources: Vec::new(alloc),
            starts: Vec::new(alloc),
            values: Vec::new(alloc),
            taking: false,
            items: Vec::new(alloc),
            bindings: Vec::new(alloc),
        })
    }
}

// A number of 32 bits.
fn fits(number: u32)
    ensures { number < 2 ^ 32 }
{}

/// The definitions of a program with their names bound, in time linear in the program.
///
/// Each use gets the binder of its nearest definition, a primitive with all its arguments becomes a node of its own, and the
/// arguments of a constructor stand apart. Nodes are numbered as they end, binders as they stand in the text. Where there are
/// 2^32 nodes or more than `BINDER_LIMIT` binders, it answers that there is no memory.
pub fn bind_program(
    alloc: Global,
    program: &Program,
    names: &NameTable,
) -> Result<Bound, AllocError>
    ensures bound { IfOk result (λ b. bound_view b ≡ program_made names.now (program_view program.now)) }
    ensures few_nodes { IfOk result (λ _. nodes_made names.now (program_view program.now) < 2 ^ 32) }
    ensures few_binders { IfOk result (λ _. length (program_made names.now (program_view program.now)).sources
        ≤ 2 ^ 31) }
{
    let mut resolver = Resolver::new(alloc, names)?;
    let mut walk = Walk::of_items(alloc, program.items())?;
    while let Some(visit) = walk.next()? {
        resolver.visit(visit)?;
    }
    if resolver.sources.len() > BINDER_LIMIT {
        return Err(AllocError);
    }
    fits(resolver.next);
    Ok(Bound {
        items: resolver.items,
        sources: resolver.sources,
    })
}
