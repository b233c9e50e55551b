// The marks with which scopes of a pattern begin.
ghost use Rattle.std.specs.Prelude.{◌≡◌, ◌∷◌, [], length, map, IfOk};
ghost use Rattle.lq_text_qualifiers.specs.Sorting.Views.{asked_view};
ghost use Rattle.lq_refined_instances.specs.Scopes.{scope_in};
ghost use Rattle.lq_refined_instances.specs.Seen.{visible_view};
ghost use Rattle.lq_refined_instances.specs.Views.{scopes_view};
ghost use Rattle.lq_refined_copies.specs.Counting.{mark_of, AreMarks, HaveMarks};

use crate::flattening::is_empty;
use lq_logic_predicates::Symbol;
use lq_refined_instances::{Scopes, Visible};
use lq_text_qualifiers::sorting::Shape;
use std::alloc::{AllocError, Global};

// The shape of a symbol, if it is the mark.
fn mark_in(visible: Visible) -> Option<Shape>
    ensures { asked_view result ≡ mark_of (visible_view visible ∷ []) }
{
    match visible.symbol {
        Symbol::Value => Some(visible.shape),
        Symbol::Bound(_) | Symbol::Position(_) => None,
    }
}

// The mark of a list of symbols.
fn first_mark(symbols: &[Visible]) -> Option<Shape>
    ensures { asked_view result ≡ mark_of (map visible_view symbols.now) }
{
    match symbols.first() {
        Some(visible) => mark_in(*visible),
        None => None,
    }
}

// The mark of a scope, where those of the earlier ones are known.
fn mark_at(
    alloc: Global,
    table: &Scopes,
    marks: &[Option<Shape>],
    at: u64,
) -> Result<Option<Shape>, AllocError>
    requires all { length marks.now ≡ at }
    requires marks { HaveMarks (scopes_view table.now) marks.now }
    ensures { IfOk result (λ m. asked_view m ≡ mark_of (scope_in (scopes_view table.now) at)) }
{
    let Some(last) = table.last(at) else {
        return Ok(None);
    };
    match last.hidden {
        Some(_) => {
            let symbols = table.visible(alloc, at)?;
            Ok(first_mark(&symbols))
        }
        None => {
            if is_empty(table, last.parent) {
                return Ok(mark_in(last.visible));
            }
            Ok(marks[last.parent as usize])
        }
    }
}

/// The marks of all scopes of a table.
pub(crate) fn marks_of(alloc: Global, table: &Scopes) -> Result<Vec<Option<Shape>>, AllocError>
    ensures { IfOk result (λ marks. AreMarks (scopes_view table.now) marks.items) }
{
    let mut marks = Vec::new(alloc);
    for at in 0..table.len() {
        let mark = mark_at(alloc, table, marks.as_slice(), at)?;
        marks.push(mark)?;
    }
    Ok(marks)
}
