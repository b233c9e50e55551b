// Names with their places, and what there is to say of those that are defined again.
ghost use Rattle.std.specs.Prelude.{◌≡◌, ◌++◌, map, reverse, OnOk};
ghost use Rattle.lq_text_scope.specs.Complaints.{least_with};
ghost use Rattle.lq_text_scope.specs.Datatypes.{name_of};
ghost use Rattle.lq_text_scope.specs.Patterns.{again, repeated, shown_names};
ghost use Rattle.lq_text_scope.specs.Views.{binding_view, found_view};

use crate::complaint::{Cause, Least};
use crate::scope::Scope;
use lq_base_names::{Name, Place};
use std::alloc::AllocError;

/// A name where it is defined.
#[derive(Clone, Copy, Debug)]
pub struct Binding {
    pub name: Name,
    pub place: Place,
}

/// What there is to say of a name that may be defined already.
pub(crate) fn note_again(known: &Scope, least: &mut Least, binding: Binding)
    ensures { found_view least.new.found ≡ least_with (found_view least.old.found)
        (again (map name_of known.now) (binding_view binding)) }
{
    if known.has(binding.name) {
        least.note(binding.place, Cause::Twice(binding.name));
    }
}

/// Names that become visible, each after those before it.
pub(crate) fn show_all(known: &mut Scope, bindings: &[Binding]) -> Result<(), AllocError>
    ensures { OnOk result (known.new ≡ shown_names (map binding_view bindings.now) ++ known.old) }
{
    for binding in bindings {
        known.show(binding.name, 0)?;
    }
    Ok(())
}

/// The same, with what there is to say of those that are defined again.
pub(crate) fn note_repeated(
    known: &mut Scope,
    least: &mut Least,
    bindings: &[Binding],
) -> Result<(), AllocError>
    ensures shown { OnOk result (known.new ≡ shown_names (map binding_view bindings.now) ++ known.old) }
    ensures found { OnOk result (found_view least.new.found ≡ least_with (found_view least.old.found)
        (repeated (map name_of known.old) (map binding_view bindings.now))) }
{
    for binding in bindings {
        note_again(known, least, *binding);
        known.show(binding.name, 0)?;
    }
    Ok(())
}
