// Laws of the definitions. Nothing is run.
ghost use Rattle.lq_text_parser.specs.Syntax.Examples.{DifferenceExample, BuildExample, QualifierExample};
ghost use Rattle.lq_text_parser.specs.Syntax.Texts.{ProgramsAreSame, QualifiersAreSame, MeasuresAreSame, ProgramsAreOne, QualifiersAreOne, MeasuresAreOne};

use lq_text_actions::one_value;

/// What the reading of tokens makes on a stack of values is what the lines of the grammar say, for each kind of text.
pub fn same_trees()
    ensures programs { ProgramsAreSame }
    ensures qualifiers { QualifiersAreSame }
    ensures measures { MeasuresAreSame }
{}

/// The lines of the grammar give tokens at most one text of a kind.
pub fn one_tree()
    ensures programs { ProgramsAreOne }
    ensures qualifiers { QualifiersAreOne }
    ensures measures { MeasuresAreOne }
{
    one_value();
}

/// Small texts with their trees.
pub fn examples()
    ensures difference { DifferenceExample }
    ensures build { BuildExample }
    ensures qualifier { QualifierExample }
{}
