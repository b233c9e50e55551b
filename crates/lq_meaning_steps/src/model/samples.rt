ghost use Rattle.lq_meaning_steps.specs.Model.Examples.{QuotientExample, RemainderExample, ProductExample, ComparisonExample, OrderExample, InputExample, ShadowingExample, HidingExample, CallExample, PartialExample, RecursionExample, DepthExample, LocalExample, LoopExample, AliasExample, MatchExample, TupleExample, LogicExample, DivisorExample, BoundsExample, LengthExample, CaseExample, AssertionExample, UnreachedExample, StepsExample, FirstStepExample, ParameterExample, StoreExample, OperandsExample, ComparedExample, MadeExample, FetchedExample, StoredExample, PartsExample, AppliedExample, OwnNameExample};

/// Small programs, one or more for each group of forms: what their first steps give, and what they mean.
pub fn examples()
    ensures quotient { QuotientExample }
    ensures remainder { RemainderExample }
    ensures product { ProductExample }
    ensures comparison { ComparisonExample }
    ensures order { OrderExample }
    ensures input { InputExample }
    ensures shadowing { ShadowingExample }
    ensures hiding { HidingExample }
    ensures call { CallExample }
    ensures partial { PartialExample }
    ensures recursion { RecursionExample }
    ensures depth { DepthExample }
    ensures local { LocalExample }
    ensures running { LoopExample }
    ensures alias { AliasExample }
    ensures first_arm { MatchExample }
    ensures tuple { TupleExample }
    ensures logic { LogicExample }
    ensures divisor { DivisorExample }
    ensures bounds { BoundsExample }
    ensures length { LengthExample }
    ensures case { CaseExample }
    ensures assertion { AssertionExample }
    ensures unreached { UnreachedExample }
    ensures steps { StepsExample }
    ensures first_step { FirstStepExample }
    ensures parameter { ParameterExample }
    ensures store { StoreExample }
    ensures operands { OperandsExample }
    ensures compared { ComparedExample }
    ensures made { MadeExample }
    ensures fetched { FetchedExample }
    ensures stored { StoredExample }
    ensures parts { PartsExample }
    ensures applied { AppliedExample }
    ensures own_name { OwnNameExample }
{}
