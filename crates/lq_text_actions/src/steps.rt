// The steps of a reading, one after the other.
ghost use Rattle.std.specs.Prelude.{◌≡◌, ◌≤◌, ◌+◌, ◌*◌, ◌^◌, length, map, Some, IsSome, IfOk, Err};
ghost use Rattle.lq_text_actions.specs.Trees.{run, nowhere, nothing_made};
ghost use Rattle.lq_text_actions.specs.Making.{making_view};
ghost use Rattle.lq_text_actions.specs.Views.{lexeme_view};
ghost use Rattle.lq_text_actions.specs.declared.values.MakeError.TheVariants.{Misfit};

use crate::builder::Builder;
use crate::values::{Content, Lexeme, MakeError};
use lq_base_names::{Place, TextKind};
use lq_text_grammar::Event;
use std::alloc::Global;

// Before the first token.
const NOWHERE: Lexeme = Lexeme {
    place: Place {
        text: TextKind::Program,
        line: 0,
        column: 0,
    },
    content: Content::Neither,
};

/// What the steps make of the tokens.
pub fn run(alloc: Global, events: &[Event], lexemes: &[Lexeme]) -> Result<Builder, MakeError>
    requires { length events.now ≤ 2 ^ 30 + 2 ^ 29 }
    ensures ok { IfOk result (λ b. run events.now (map lexeme_view lexemes.now) nowhere nothing_made
        ≡ Some (making_view b)) }
    ensures fits { IsSome (run events.now (map lexeme_view lexemes.now) nowhere nothing_made)
        → result ≡ Err Misfit → ⊥ }
{
    let mut builder = Builder {
        alloc,
        made: 0,
        values: Vec::new(alloc),
    };
    let mut last = NOWHERE;
    let mut taken = 0;
    for event in events {
        match *event {
            Event::Make(action) => builder.make(action, &last)?,
            Event::Take => {
                if taken == lexemes.len() {
                    return Err(MakeError::Misfit);
                }
                last = lexemes[taken];
                taken += 1;
            }
        }
    }
    Ok(builder)
}
