// Laws of the definitions. Nothing is run.
ghost use Rattle.lq_refined_types.specs.Parts.Flowing.{FailingRefutes, FlowingIsStrongest, FlowingSolves, LargestExists, UnionMeets};
ghost use Rattle.lq_refined_types.specs.Parts.Refuting.{OneIsRefuted, OthersStay, RefutedGo};
ghost use Rattle.lq_refined_types.specs.Parts.Laws.{FormulaAfter, PartsAfter, UnderBy};
ghost use Rattle.lq_refined_types.specs.Parts.Values.{TruthBy};

/// Two substitutions one after the other are one, and an assignment of instances commutes with a substitution.
pub fn substitutions()
    ensures formulas { FormulaAfter }
    ensures parts { PartsAfter }
    ensures under { UnderBy }
{}

/// A predicate with something put for its names is true exactly where it is true under the values of that.
pub fn truth_under_substitution()
    ensures { TruthBy }
{}

/// What two selections of instances make valid among the flows their union does, so of any selections one holds each that does. Where
/// any selection makes all implications valid, the greatest one of the flows is the strongest solution, and a demand that isn't valid under
/// it leaves none.
///
/// These are the fixed point and its use of Rondon, Kawaguchi and Jhala (PLDI 2008).
pub fn unions_of_selections()
    ensures union { UnionMeets }
    ensures largest { LargestExists }
    ensures solves { FlowingSolves }
    ensures strongest { FlowingIsStrongest }
    ensures refutes { FailingRefutes }
{}

/// At a point at which a flow fails under a selection, some chosen instance of its goal is refuted, and none that is belongs to a fewer
/// selection that meets the flow. Where other unknowns change, an implication stays as it was.
///
/// This is the step of weakening of Rondon, Kawaguchi and Jhala (PLDI 2008), at a point of the whole implication.
pub fn refuted_instances()
    ensures one { OneIsRefuted }
    ensures refuted { RefutedGo }
    ensures others { OthersStay }
{}
