// What holds of the definitions. Nothing is run.
ghost use Rattle.lq_sound_texts.specs.Measures.Laws.{TextMeasuresAreSorted, TextMeasuresFit};

use lq_text_qualifiers::sorting::measures_become;

/// Where nothing is complained of the measures of a text, these have different names and ask of no field past the last one, their equations
/// speak of `v` and of fields at their sorts, and all constructors are listed.
pub fn text_measures_fit()
    ensures { TextMeasuresFit }
{
    measures_become();
}

/// Then their equations are well sorted: they measure `v`, an object, and speak of each field at its kind.
pub fn text_measures_are_sorted()
    ensures { TextMeasuresAreSorted }
{
    measures_become();
}
