// Laws of readings and levels.
ghost use Rattle.std.specs.Prelude.{◌≡◌, ◌↔◌, [], ◌∷◌, List, Some, length, take, get_or, ℕ};
ghost use Rattle.lq_text_grammar.specs.declared.symbol.Symbol.TheVariants.{Part};
ghost use Rattle.lq_text_grammar.specs.declared.kind.Kind.{Kind};
ghost use Rattle.lq_text_grammar.specs.declared.symbol.Event.{Event};
ghost use Rattle.lq_text_grammar.specs.declared.rule.Rule.{Rule};
ghost use Rattle.lq_text_grammar.specs.Levels.{kind_at, levels_of, IsLevel, IsShallow, Within};
ghost use Rattle.lq_text_grammar.specs.Reading.{Begins, IsText};

/// Tokens are a text by the steps of one reading at most.
pub fn one_reading()
    ensures { (start : Rule) (ks : List Kind) (es fs : List Event) → IsText start ks es → IsText start ks fs
        → es ≡ fs }
{}

/// A token has at most one level.
pub fn one_level()
    ensures { (start : Rule) (ks : List Kind) (k : Kind) (l m : ℕ) → IsLevel start ks k l
        → IsLevel start ks k m → l ≡ m }
{}

/// A token behind tokens that begin a text has a level.
pub fn some_level()
    ensures { (start : Rule) (ks : List Kind) (k : Kind) → Begins start ks → (l : ℕ) × IsLevel start ks k l }
{}

/// The levels of a text's tokens are those that any reading of the text has.
pub fn levels_of_readings()
    ensures each { (start : Rule) (ks : List Kind) (es : List Event) (d : IsText start ks es)
        → length (levels_of d) ≡ length ks }
    ensures same { (start : Rule) (ks : List Kind) (es : List Event) (d : IsText start ks es) (at : ℕ)
        (k : Kind) (l : ℕ) → kind_at ks at ≡ Some k → IsLevel start (take at ks) k l
        ↔ (l ≡ get_or (levels_of d) at 0) }
{}

/// Where no level is above the limit, the reading opens no more levels.
pub fn within_limit()
    ensures { (start : Rule) (limit : ℕ) (ks : List Kind) (es : List Event) → IsText start ks es
        → IsShallow start limit ks (length ks) → Within limit (Part start ∷ []) ks es }
{}
