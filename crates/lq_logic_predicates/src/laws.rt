// What readings, rows and points say of one another.
ghost use Rattle.std.specs.Prelude.{true, false, ◌≡◌, ◌↔◌, ℕ, Bool, List, All, length, IsTrue, ◌<◌};
ghost use Rattle.lq_logic_rows.specs.Row.{Row, Valuation, level, RowHolds};
ghost use Rattle.lq_logic_predicates.specs.declared.symbol.Symbol.{Symbol};
ghost use Rattle.lq_logic_predicates.specs.Cases.{MeetsCaseAt, MeetsCaseOfRows};
ghost use Rattle.lq_logic_predicates.specs.Comparison.{Comparison, IsRowOf};
ghost use Rattle.lq_logic_predicates.specs.Formula.{Formula};
ghost use Rattle.lq_logic_predicates.specs.ClosedImplication.{ClosedImplication, IsPoint, IsValid, EachTrueIn};
ghost use Rattle.lq_logic_predicates.specs.Points.{Point, difference_at, ComparisonHolds, Meets, point_of};
ghost use Rattle.lq_logic_predicates.specs.Reading.{Reading, reading_of, Gathers};
ghost use Rattle.lq_logic_predicates.specs.RowMeaning.{AgreesOn, numbers_at, point_by, MeetsRows};
ghost use Rattle.lq_logic_predicates.specs.Sum.{Sum};
ghost use Rattle.lq_logic_predicates.specs.Table.{all_differ};
ghost use Rattle.lq_logic_predicates.specs.Truth.{Meaning, IsTrueIn, truth_of};

/// A predicate that is true of whole numbers has a tightened reading that holds at the point of these
/// numbers, and of one that is false the reading of the negation holds there. They make a point of every
/// implication. So a valid implication whose hypotheses are true of whole numbers has a true goal.
pub fn whole_numbers_are_a_point()
    ensures holds { (m : Meaning) (p : Formula) → IsTrueIn m p → Meets (point_of m) (reading_of true p) }
    ensures fails { (m : Meaning) (p : Formula) → truth_of m p ≡ false
        → Meets (point_of m) (reading_of false p) }
    ensures point { (m : Meaning) (i : ClosedImplication) → IsPoint i (point_of m) }
    ensures valid { (m : Meaning) (i : ClosedImplication) → IsValid i → EachTrueIn m i.hypotheses
        → IsTrueIn m i.goal }
{}

/// The row of a comparison has the comparison's difference as its level, at any valuation that gives each
/// numbered term its number at the point. So a reading of rows is met exactly where the reading of
/// comparisons that it gathers is. A comparison has one row, whose terms are numbered. Each point has such a valuation, and each valuation such a point.
pub fn rows_say_what_comparisons_say()
    ensures level { (terms : List Sum) (v : Valuation) (p : Point) (c : Comparison) (row : Row)
        → IsTrue (all_differ terms) → AgreesOn terms v p → IsRowOf terms c row
        → level v row ≡ difference_at p c }
    ensures row { (terms : List Sum) (v : Valuation) (p : Point) (c : Comparison) (row : Row)
        → IsTrue (all_differ terms) → AgreesOn terms v p → IsRowOf terms c row → RowHolds v row
        ↔ ComparisonHolds p c }
    ensures reading { (terms : List Sum) (v : Valuation) (p : Point) (reading : Reading Comparison)
        (rows : Reading Row) → IsTrue (all_differ terms) → AgreesOn terms v p → Gathers terms reading rows
        → MeetsRows v p rows ↔ Meets p reading }
    ensures once { (terms : List Sum) (c : Comparison) (row other : Row) → IsTrue (all_differ terms)
        → IsRowOf terms c row → IsRowOf terms c other → row ≡ other }
    ensures within { (terms : List Sum) (c : Comparison) (row : Row) → IsRowOf terms c row
        → All (λ part. part.0 < length terms) row.parts }
    ensures valuation { (terms : List Sum) (p : Point) → AgreesOn terms (numbers_at terms p) p }
    ensures point { (terms : List Sum) (v : Valuation) (holds : Symbol → Bool) (class_of : Sum → ℕ)
        → IsTrue (all_differ terms) → AgreesOn terms v (point_by terms v holds class_of) }
{}

/// A case of a reading is one choice of literals that makes it true: a reading is met exactly where all
/// literals of one of its cases hold, of comparisons at a point, of rows by a valuation.
pub fn readings_are_met_by_cases()
    ensures reading { (p : Point) (reading : Reading Comparison) → Meets p reading ↔ MeetsCaseAt p reading }
    ensures rows { (v : Valuation) (p : Point) (reading : Reading Row) → MeetsRows v p reading
        ↔ MeetsCaseOfRows v p reading }
{}
