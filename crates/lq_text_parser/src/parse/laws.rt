// Laws of the answers to tokens.
ghost use Rattle.std.specs.Prelude.{◌≡◌, List, ℕ, length};
ghost use Rattle.lq_text_grammar.specs.Levels.{IsShallow, IsSyntax, IsTooDeep};
ghost use Rattle.lq_text_grammar.specs.Reading.{IsText};
ghost use Rattle.lq_text_grammar.specs.declared.kind.Kind.{Kind};
ghost use Rattle.lq_text_grammar.specs.declared.rule.Rule.{Rule};
ghost use Rattle.lq_text_grammar.specs.declared.symbol.Event.{Event};
ghost use Rattle.lq_text_actions.specs.Value.{Value};
ghost use Rattle.lq_text_lexer.specs.declared.token.Token.{Token};
ghost use Rattle.lq_base_names.specs.declared.place.TextKind.{TextKind};
ghost use Rattle.lq_text_parser.specs.Parse.Trees.{IsRead};

use lq_text_actions::one_value;

/// Tokens that are a text within the limit have no stop and no token that is too deep; others have one of the two at most, at one place.
pub fn one_answer()
    ensures stop { (start : Rule) (limit : ℕ) (ks : List Kind) (es : List Event) (at : ℕ)
        → IsText start ks es → IsSyntax start limit ks at → ⊥ }
    ensures deep { (start : Rule) (limit : ℕ) (ks : List Kind) (at : ℕ)
        → IsShallow start limit ks (length ks) → IsTooDeep start limit ks at → ⊥ }
    ensures either { (start : Rule) (limit : ℕ) (ks : List Kind) (at to : ℕ) → IsSyntax start limit ks at
        → IsTooDeep start limit ks to → ⊥ }
    ensures stops { (start : Rule) (limit : ℕ) (ks : List Kind) (at to : ℕ) → IsSyntax start limit ks at
        → IsSyntax start limit ks to → at ≡ to }
    ensures depths { (start : Rule) (limit : ℕ) (ks : List Kind) (at to : ℕ) → IsTooDeep start limit ks at
        → IsTooDeep start limit ks to → at ≡ to }
{}

/// At most one value is read of the tokens of a text.
pub fn one_tree()
    ensures { (kind : TextKind) (text : List ℕ) (names : List (List ℕ)) (tokens : List Token) (v w : Value)
        → IsRead kind text names tokens v → IsRead kind text names tokens w → v ≡ w }
{
    one_value();
}
