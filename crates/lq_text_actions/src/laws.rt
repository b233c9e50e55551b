// Laws of what readings make.
ghost use Rattle.std.specs.Prelude.{◌≡◌, List};
ghost use Rattle.lq_text_grammar.specs.declared.kind.Kind.{Kind};
ghost use Rattle.lq_base_names.specs.declared.place.TextKind.{TextKind};
ghost use Rattle.lq_text_actions.specs.Laws.{MakesItems, MakesQualifiers, MakesMeasures, MakesFewItems};
ghost use Rattle.lq_text_actions.specs.Trees.{Makes};
ghost use Rattle.lq_text_actions.specs.Value.{Lexeme, Value};

use lq_text_grammar::{one_reading, within_limit};

/// The reading of a text makes at most one value.
pub fn one_value()
    ensures { (kind : TextKind) (ks : List Kind) (ls : List Lexeme) (v w : Value) → Makes kind ks ls v
        → Makes kind ks ls w → v ≡ w }
{
    one_reading();
}

/// The reading of a text makes a value of the text's kind, and where no token has a level above a limit, no tree of it nests
/// deeper than the limit.
pub fn readings_make_texts()
    ensures program { MakesItems }
    ensures qualifiers { MakesQualifiers }
    ensures measures { MakesMeasures }
{
    within_limit();
}

/// The reading of a text makes at most one item a step.
pub fn few_items()
    ensures { MakesFewItems }
{}
