ghost use Rattle.lq_meaning_steps.specs.Model.Laws.{IsStepFunction, IsDetermined, IsDeterminedOnStates, HasOneOutcome, IsSafeBySteps, StaysOver, OutputGrows, OutputPasses, ClosesTwice, ClosesAlike, ClosesByNone, ClosesBehind, FitsBinds, OneIsPaired, PairsJoin, ItemsCloseTwice, ItemsCloseAlike, ItemsCloseByNone, ItemsCloseBehind, StepsInside, PartsWait, ValuesRest, MeansAlike, MeansClosed, MeansMore};
ghost use Rattle.lq_meaning_steps.specs.Model.Numbers.{HaveNoBound, DividesTowardZero};
ghost use Rattle.lq_meaning_steps.specs.Model.Places.{OtherPlacesDontCount};
ghost use Rattle.lq_meaning_steps.specs.Model.Outcomes.{SameMeaningSameOutcomes, NeverStuckByMeaning, SafeWithoutFaults};
ghost use Rattle.lq_meaning_steps.specs.Model.Adequacy.{IsAdequate, IsComplete, IsAdequateOfPrograms, IsCompleteOfPrograms, IsSafeByMeaning};

/// The step function gives exactly what the rows of the relation give, so an expression has at most one step
/// in a world; and a state of a program has at most one.
pub fn one_step()
    ensures function { IsStepFunction }
    ensures once { IsDetermined }
    ensures states { IsDeterminedOnStates }
{}

/// The steps of a program have exactly one outcome for each input and number of steps, and so one output; it is
/// the one that the function gives. So a program is safe exactly where no outcome of its steps is a fault or stuck.
pub fn one_outcome()
    ensures one { HasOneOutcome }
    ensures safe { IsSafeBySteps }
{}

/// Numbers have no bound: literals, numbers of the input and results of arithmetic are those of whole numbers,
/// whatever their sizes. Quotients are rounded toward 0, remainders have the dividend's sign.
pub fn numbers()
    ensures unbounded { HaveNoBound }
    ensures toward_zero { DividesTowardZero }
{}

/// What a run has come to stays, with the same output, however many more steps are asked for.
pub fn over_stays()
    ensures { StaysOver }
{}

/// The output of some steps begins that of one step more, which has at most one number more. So a run goes
/// through each beginning of its output.
pub fn output_grows()
    ensures by_one { OutputGrows }
    ensures through { OutputPasses }
{}

/// A form steps as its leftmost part that isn't a value does, and is no value before that. A value has no
/// step.
pub fn parts_step()
    ensures inside { StepsInside }
    ensures wait { PartsWait }
    ensures rest { ValuesRest }
{}

/// Values are put for variables all at once: one closing after another is one closing, by the values alone,
/// and no value changes nothing. Values for variables that an earlier closing left out count before its own. One
/// value is for one variable, and two lists of values are together for the variables of both.
pub fn closing()
    ensures twice { ClosesTwice }
    ensures alike { ClosesAlike }
    ensures by_none { ClosesByNone }
    ensures behind { ClosesBehind }
    ensures binds { FitsBinds }
    ensures one { OneIsPaired }
    ensures together { PairsJoin }
{}

/// The same for the items of a program.
pub fn closing_items()
    ensures twice { ItemsCloseTwice }
    ensures alike { ItemsCloseAlike }
    ensures by_none { ItemsCloseByNone }
    ensures behind { ItemsCloseBehind }
{}

/// What an expression means goes by the values of its environment alone, and values that are put for variables
/// are an environment in front. Where its calls don't nest too deep, a greater bound changes nothing.
pub fn environments()
    ensures alike { MeansAlike }
    ensures closed { MeansClosed }
    ensures deeper { MeansMore }
{}

/// An expression does by its steps what it means in an environment with a bound on nested calls: it comes to
/// that value, fault or end of the input, or goes on for at least so many steps. What it comes to by fewer
/// steps it means with that bound.
pub fn adequacy()
    ensures there { IsAdequate }
    ensures back { IsComplete }
{}

/// So does a program; and it is safe exactly where its meaning is, whatever the bound.
pub fn adequacy_of_programs()
    ensures there { IsAdequateOfPrograms }
    ensures back { IsCompleteOfPrograms }
    ensures safe { IsSafeByMeaning }
{}

/// Programs that mean the same, at every bound on nested calls and on every input, have the same outcomes, where the first
/// one is never stuck. A program is never stuck exactly where its meaning isn't, and then it is safe exactly where it meets
/// no fault.
pub fn same_outcomes()
    ensures same { SameMeaningSameOutcomes }
    ensures meaning { NeverStuckByMeaning }
    ensures safe { SafeWithoutFaults }
{}

/// A program means the same whatever the numbers of its nodes are, and whatever the places are of its nodes, patterns and
/// items at which nothing can fault or end the input.
pub fn other_places()
    ensures { OtherPlacesDontCount }
{}
