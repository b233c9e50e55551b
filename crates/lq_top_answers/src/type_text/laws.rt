// Texts of types, worked out by hand. Nothing is run.
ghost use Rattle.lq_top_answers.specs.TypeText.Examples.{FindExample, InsertExample, LettersExample, TestExample, ArgumentsExample, MatrixExample};

/// The texts of some types, worked out by hand.
pub fn examples()
    ensures find { FindExample }
    ensures insert { InsertExample }
    ensures letters { LettersExample }
    ensures test { TestExample }
    ensures arguments { ArgumentsExample }
    ensures matrix { MatrixExample }
{}
