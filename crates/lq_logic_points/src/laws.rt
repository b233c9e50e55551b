// Which readings can be evaluated at a point.
ghost use Rattle.std.specs.Prelude.{IsTrue, List};
ghost use Rattle.lq_logic_rows.specs.Row.{Row};
ghost use Rattle.lq_base_numbers.specs.declared.fractions.frac.Frac.{Frac};
ghost use Rattle.lq_logic_predicates.specs.Comparison.{Comparison};
ghost use Rattle.lq_logic_predicates.specs.Reading.{Reading, Gathers};
ghost use Rattle.lq_logic_predicates.specs.Sum.{Sum};
ghost use Rattle.lq_logic_predicates.specs.Table.{all_differ};
ghost use Rattle.lq_logic_points.specs.Evaluation.{CanEvaluate, Evaluates};

use lq_logic_predicates::rows_say_what_comparisons_say;

/// A reading of rows that gathers a reading whose comparisons can be evaluated can be evaluated itself. So
/// at a point `holds` may be asked of every tightened reading of a hypothesis or of the negated goal, and
/// of each of its parts.
pub fn gathered_readings_can_be_evaluated()
    ensures { (terms : List Sum) (values : List Frac) (reading : Reading Comparison) (rows : Reading Row)
        → IsTrue (all_differ terms) → Gathers terms reading rows → Evaluates terms values reading
        → CanEvaluate values rows }
{
    rows_say_what_comparisons_say();
}
