//! The work of a tableau at a configuration, as operations on fractions, and how large the numbers are that it needs.

ghost use Rattle.lq_prover_pivots.specs.Work.Example.{SomeWork, SomeForm, SomePart};
ghost use Rattle.lq_prover_pivots.specs.Work.Extension.{FormsCanBeAdded};
ghost use Rattle.lq_prover_pivots.specs.Work.Laws.{SmallFit, ValuesAreQuotients, WorkIsSmall, WorkFits};
ghost use Rattle.lq_prover_pivots.specs.Work.Laws.{ReadingIsSmall, FormingIsSmall, ExchangingIsSmall, MovingIsSmall};
ghost use Rattle.lq_prover_pivots.specs.Work.Laws.{SharingIsSmall, LevelIsSmall, WholeLevelIsSmall};
ghost use Rattle.lq_prover_pivots.specs.Work.Part.{PartsAreSmall, WorkOnPartsFits, LevelsAgree, ReadingsFit, WholeLevelsFit, SmallSumsAreSmall};

/// One whole number, not 0, makes each entry whole, and times the least common multiple of the rows' divisors each value.
pub fn values_are_quotients()
    ensures { ValuesAreQuotients }
{}

/// What is done to read a row needs numerators and denominators of at most 2^40.
pub fn reading_is_small()
    ensures { ReadingIsSmall }
{}

/// What is done to add a form needs numerators of at most 2^80 and denominators of at most 2^40.
pub fn forming_is_small()
    ensures { FormingIsSmall }
{}

/// What is done to exchange two variables needs numerators of at most 2^81 and denominators of at most 2^80.
pub fn exchanging_is_small()
    ensures { ExchangingIsSmall }
{}

/// What is done to move a variable to a bound needs numerators of at most 2^82 and denominators of at most 2^80.
pub fn moving_is_small()
    ensures { MovingIsSmall }
{}

/// What is done to find the multipliers of a conflict needs numerators and denominators of at most 2^40.
pub fn sharing_is_small()
    ensures { SharingIsSmall }
{}

/// What is done to evaluate a row at a configuration needs numerators of at most 2^80 + 2^40 and denominators of at most 2^40.
pub fn levels_are_small()
    ensures { LevelIsSmall }
{}

/// What is done to evaluate a row at whole numbers needs numerators of at most 2^103 + 2^40, over 1.
pub fn whole_levels_are_small()
    ensures { WholeLevelIsSmall }
{}

/// No work needs a numerator of 2^104 or more, or a denominator above 2^80.
pub fn work_is_small()
    ensures { WorkIsSmall }
{}

/// An operation that needs no number of 2^127 or more isn't past 128 bits.
pub fn small_needs_fit()
    ensures { SmallFit }
{}

/// No work is past 128 bits.
pub fn work_fits()
    ensures { WorkFits }
{}

/// There is work at a configuration of small sizes.
pub fn some_work_is_small()
    ensures { SomeWork }
{}

/// A configuration with one more form, which has its terms' entries and values summed, is one of these variables.
pub fn forms_can_be_added()
    ensures { FormsCanBeAdded }
{}

/// There is a form that can be added.
pub fn some_form_can_be_added()
    ensures { SomeForm }
{}

/// Some of the rows have small sizes where all of them have.
pub fn parts_are_small()
    ensures { PartsAreSmall }
{}

/// Nothing that is done at a configuration of some of the rows is past 128 bits, nor any of all rows at its values or at whole ones.
pub fn work_on_parts_fits()
    ensures { WorkOnPartsFits }
{}

/// A row is evaluated alike at values that are the same at the terms.
pub fn levels_agree()
    ensures { LevelsAgree }
{}

/// Nothing that is done to read a row is past 128 bits.
pub fn readings_fit()
    ensures { ReadingsFit }
{}

/// Nothing that is done to evaluate a row at whole numbers is past 128 bits.
pub fn whole_levels_fit()
    ensures { WholeLevelsFit }
{}

/// Constants of fewer than 2^63 of the rows sum to less than 2^103.
pub fn small_sums_are_small()
    ensures { SmallSumsAreSmall }
{}

/// There is a part of rows of small sizes that is not all of them.
pub fn some_part_is_small()
    ensures { SomePart }
{}
