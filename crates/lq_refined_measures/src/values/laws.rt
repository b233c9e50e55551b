// Laws of the definitions. Nothing is run.
ghost use Rattle.lq_refined_measures.specs.Values.Examples.{LengthOfThree, SizeOfTree, SumOfThree};
ghost use Rattle.lq_refined_measures.specs.Values.Laws.{EquationsHold, ValuesHaveNumbers};

/// Where measures are read as what they are of the values of a program, the equations of measures at a constructor hold of each value that
/// it makes, with its fields for the fields.
pub fn equations_hold()
    ensures { EquationsHold }
{}

/// There are numbers for values by which lengths and measures can be read, where no two measures have one name.
pub fn values_have_numbers()
    ensures { ValuesHaveNumbers }
{}

/// The measures of some values, worked out by hand.
pub fn examples()
    ensures length { LengthOfThree }
    ensures sum { SumOfThree }
    ensures size { SizeOfTree }
{}
