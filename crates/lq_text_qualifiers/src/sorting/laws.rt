// Laws of what measures and qualifiers become. Nothing is run.
ghost use Rattle.lq_text_qualifiers.specs.Sorting.Rules.{MeasuresBecome, QualifiersBecome};

/// Measures without complaints become what is written: each name is what it names, each variable has the shape that its place asks for,
/// and a measure is made of none that is defined later.
pub fn measures_become()
    ensures { MeasuresBecome }
{}

/// Qualifiers without complaints become what is written: each name is what it names, and each variable and placeholder has the shape that
/// its place asks for.
pub fn qualifiers_become()
    ensures { QualifiersBecome }
{}
