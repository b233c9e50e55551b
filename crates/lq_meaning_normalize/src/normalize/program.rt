// Whole programs.
ghost use Rattle.std.specs.Prelude.{◌≡◌, true, length, IfOk};
ghost use Rattle.lq_meaning_normal_tree.specs.BlockView.{definitions_view};
ghost use Rattle.lq_text_walk.specs.Scoped.Whole.{scoped_view};
ghost use Rattle.lq_meaning_normal_form.specs.Outcomes.Flattening.{normal_of};
ghost use Rattle.lq_meaning_normalize.specs.Pass.Rules.{items_have_rules};
ghost use Rattle.lq_meaning_normal_form.specs.Types.Programs.{HaveTypes};
ghost use Rattle.lq_meaning_normal_form.specs.Types.Written.{ItemsAreWritten};
ghost use Rattle.lq_meaning_normalize.specs.Normalize.Made.{made_of, normal_view, KeepOutcomes, KeepTypes};
ghost use Rattle.lq_meaning_normalize.specs.Normalize.Program.{next_behind_all};

use crate::normalize::definitions::Definitions;
use crate::pass::pass_agrees;
use lq_base_names::Binder;
use lq_meaning_normal_form::binders::scoped_are_apart;
use lq_meaning_normal_form::outcomes::{normal_form_keeps_outcomes, one_pass};
use lq_meaning_normal_form::types::{programs_keep_types, scoped_programs_are_plain};
use lq_meaning_normal_tree::{Definition, drop_definitions};
use lq_meaning_steps::progress::typed_programs;
use lq_text_walk::scoped::Scoped;
use std::alloc::{AllocError, Global};

/// A program in normal form, with the names that were made for it.
///
/// It is dropped by a loop down first parts, as `drop_definitions` does.
pub struct NormalProgram {
    definitions: Vec<Definition>,
    first_made: u32,
    next: u32,
}

impl NormalProgram {
    /// The definitions, in order.
    pub fn definitions(&self) -> &[Definition]
        ensures { definitions_view result.now ≡ (normal_view self.now).items }
    {
        &self.definitions
    }

    /// The k of a made name `%k`, or none for a binder of the source.
    pub fn made_of(&self, binder: Binder) -> Option<u32>
        ensures { result ≡ made_of (normal_view self.now) binder.0 }
    {
        if binder.0 < self.first_made || self.next <= binder.0 {
            None
        } else {
            Some(binder.0 - self.first_made + 1)
        }
    }
}

impl Drop for NormalProgram {
    fn drop(self) {
        let NormalProgram {
            definitions,
            first_made: _first_made,
            next: _next,
        } = self;
        drop_definitions(definitions);
    }
}

// The first made name: the number of binders.
fn first_made(scoped: &Scoped) -> Result<u32, AllocError>
    ensures { IfOk result (λ k. k ≡ length (scoped_view scoped.now).sources) }
{
    match u32::try_from(scoped.binders()) {
        Ok(first_made) => Ok(first_made),
        Err(_) => Err(AllocError),
    }
}

/// The normal form of a program, in one pass: operands that aren't pure are bound to made names in the order of their evaluation, and
/// nested lets go into the block around them. Where the program's binders and the made names are 2^32, it answers that there is no
/// memory.
pub fn normal(alloc: Global, scoped: &Scoped) -> Result<NormalProgram, AllocError>
    ensures tree { IfOk result (λ p. items_have_rules (scoped_view scoped.now).items ≡ true → (normal_view p).items
        ≡ normal_of (length (scoped_view scoped.now).sources) (scoped_view scoped.now).items) }
    ensures same { IfOk result (λ p. items_have_rules (scoped_view scoped.now).items ≡ true
        → HaveTypes (scoped_view scoped.now).items → KeepOutcomes (scoped_view scoped.now).items (normal_view p).items) }
    ensures types { IfOk result (λ p. items_have_rules (scoped_view scoped.now).items ≡ true
        → ItemsAreWritten (scoped_view scoped.now).items
        → KeepTypes (length (scoped_view scoped.now).sources) (scoped_view scoped.now).items (normal_view p).items) }
    ensures first_made { IfOk result (λ p. (normal_view p).first_made ≡ length (scoped_view scoped.now).sources) }
    ensures made { IfOk result (λ p. (normal_view p).next
        ≡ next_behind_all (length (scoped_view scoped.now).sources) (scoped_view scoped.now).items) }
{
    pass_agrees();
    one_pass();
    scoped_are_apart();
    normal_form_keeps_outcomes();
    typed_programs();
    programs_keep_types();
    scoped_programs_are_plain();
    let first_made = first_made(scoped)?;
    let done = Vec::new(alloc);
    let mut definitions = Definitions {
        alloc,
        next: first_made,
        done,
    };
    let items = scoped.items();
    for item in items {
        definitions.add(item)?;
    }
    let Definitions {
        alloc: _alloc,
        next,
        done,
    } = definitions;
    Ok(NormalProgram {
        definitions: done,
        first_made,
        next,
    })
}
