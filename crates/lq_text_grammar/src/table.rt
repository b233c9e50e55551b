// The grammars as a table: what the next token makes of a part.
ghost use Rattle.std.specs.Prelude.{◌≡◌};
ghost use Rattle.lq_text_grammar.specs.Grammar.{alternatives};
ghost use Rattle.lq_text_grammar.specs.Levels.{way, way_of};

mod binding;
mod entry;
mod expression;
mod pattern;
mod pred;
mod program;
mod types;

use crate::kind::Kind;
use crate::rule::Rule;
use crate::symbol::Symbol;

// What the next token makes of a part.
pub(crate) enum Choice {
    Takes(&'static [Symbol]),
    Passes(&'static [Symbol]),
    Refuses,
}

// The first alternative that fits the next token.
pub(crate) fn choose(rule: Rule, next: Option<Kind>) -> Choice
    ensures { way_of result ≡ way next (alternatives rule) }
{
    match rule {
        Rule::InProgram(part) => program::choose(part, next),
        Rule::InType(part) => types::choose(part, next),
        Rule::InBinding(part) => binding::choose(part, next),
        Rule::InExpression(part) => expression::choose(part, next),
        Rule::InPattern(part) => pattern::choose(part, next),
        Rule::InEntry(part) => entry::choose(part, next),
        Rule::InPred(part) => pred::choose(part, next),
    }
}
