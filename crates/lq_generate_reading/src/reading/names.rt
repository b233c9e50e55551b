// Names that are bound.
ghost use Rattle.std.specs.Prelude.{◌≡◌, ◌∷◌, OnOk, length};

use crate::reading::state::State;
use crate::visibility::Notes;
use lq_base_names::Binder;
use std::alloc::AllocError;

impl State {
    ghost use Rattle.lq_refined_templates.specs.Points.Seen.{all_seen};
    ghost use Rattle.lq_generate_reading.specs.Visibility.Stack.{names_view};
    ghost use Rattle.lq_generate_reading.specs.Reading.Names.{left_of, Sees};
    ghost use Rattle.lq_generate_reading.specs.Reading.State.{seen_of, Stands};

    // How many names are bound.
    pub(crate) fn depth(&self) -> usize
        ensures { result ≡ length (seen_of self.now) }
    {
        self.bound.len()
    }

    // Binds a name, before a node or to the end of its block.
    pub(crate) fn bind(
        &mut self,
        notes: &Notes<'_>,
        name: Binder,
        until: Option<u32>,
    ) -> Result<(), AllocError>
        requires { Stands notes.now self.old }
        ensures { OnOk result (Sees notes.now self.old self.new (record { name = name.0; until = until } ∷ seen_of self.old)) }
    {
        let _notes = notes;
        self.bound.bind(name, until)?;
        Ok(())
    }

    // Binds names to the end of their block, one after another.
    pub(crate) fn bind_all(&mut self, notes: &Notes<'_>, names: &[Binder]) -> Result<(), AllocError>
        requires { Stands notes.now self.old }
        ensures { OnOk result (Sees notes.now self.old self.new (all_seen (names_view names.now) (seen_of self.old))) }
    {
        for name in names {
            self.bind(notes, *name, None)?;
        }
        Ok(())
    }

    // Lets go of all names but the first ones, so many of them.
    pub(crate) fn back_to(&mut self, notes: &Notes<'_>, depth: usize)
        requires { Stands notes.now self.old }
        ensures { Sees notes.now self.old self.new (left_of self.old depth) }
    {
        let _notes = notes;
        self.bound.back_to(depth);
    }
}
