//! Where rows have small sizes, no number is past 128 bits that is made of them.
#![tactic(auto)]

ghost use Rattle.lq_prover_small_rows.specs.Laws.{WorkOverFits, PlacedLevelsFit, NearLevelsFit, SumsAreSmall, RowsAreThere, SizesAreConstants};

/// Of a list of rows of small sizes: the work of a tableau that was ever handed some of them fits, and so does each row at the values of
/// one of its configurations, and at whole numbers that are no larger than constants of few of the rows sum to.
pub fn small_rows_fit()
    ensures work { WorkOverFits }
    ensures placed { PlacedLevelsFit }
    ensures near { NearLevelsFit }
    ensures sums { SumsAreSmall }
{}

/// Of a list of rows of comparisons: each row of one of the comparisons is one of them, and their constants have the sizes of the
/// comparisons.
pub fn rows_are_there()
    ensures there { RowsAreThere }
    ensures sizes { SizesAreConstants }
{}
