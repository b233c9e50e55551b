// Laws of the definitions. Nothing is run.
ghost use Rattle.lq_refined_rules.specs.Checks.BlockExamples.{InnerFunctionExample, InnerRecursionExample, BoundMatchExample, TruthExample, NumberMatchExample, UnitExample};
ghost use Rattle.lq_refined_rules.specs.Checks.DataExamples.{TupleExample, TupleMatchExample, ListExample, TypedListExample, MissingCaseExample, DefaultExample, BuildExample, MapExample};
ghost use Rattle.lq_refined_rules.specs.Checks.Examples.{SampleExample, TypedExample, ReadExample, AliasExample, IfExample, DivideExample, RemainderExample, AssertFalseExample, PolymorphicExample, FunctionExample};
ghost use Rattle.lq_refined_rules.specs.Checks.NumberExamples.{SumExample, PartialCallExample, GuardExample, NestedGuardExample, AssertVariableExample, TruthCallExample, TruthGuardExample, QuotientExample, ZeroDivisorExample, AnyExample, KnownPartExample, KnownExample, ReadOfExample, OwnBlockExample, KeptNameExample};
ghost use Rattle.lq_refined_rules.specs.Checks.TypeExamples.{TripleExample, NestedTupleExample, TupleArgumentExample, ArrayInTupleExample, FunctionInTupleExample, NestedArrayExample, TruthArrayExample, PolymorphicArrayExample, SomeExample, NoneExample, NoFunctionExample, UnitListExample, OrderExample, OtherwiseExample, MatchTwiceExample, MatrixExample, NestedMapExample};
ghost use Rattle.lq_refined_rules.specs.Checks.Fitting.{SimpleTypesAreGiven};
ghost use Rattle.lq_refined_rules.specs.Checks.JudgedExamples.{GuardedChecks, UnguardedFails};
ghost use Rattle.lq_refined_rules.specs.Checks.Laws.{ListIsChecks, TypedIsReady, TypedListIsChecks};
ghost use Rattle.lq_refined_rules.specs.Checks.Solutions.{FlowsSolve};

use lq_refined_types::parts::unions_of_selections;
use lq_refined_types::subtyping::split_is_subtype;
use lq_refined_types::types::simple_types_are_kept;

/// An assignment makes the implications of a program valid exactly where the program checks under it.
pub fn list_is_checks()
    ensures { ListIsChecks }
{
    split_is_subtype();
}

/// A simply typed program whose binders differ, with templates of its points' simple types, is ready for the rules.
pub fn typed_is_ready()
    ensures { TypedIsReady }
{
    simple_types_are_kept();
}

/// With templates of the points' simple types, and in an environment that has the simple types of names, an operation gives a type of its
/// simple type, and the environment of an arm has the simple types of its pattern's names too.
pub fn simple_types_are_given()
    ensures { SimpleTypesAreGiven }
{
    simple_types_are_kept();
}

/// Of a simply typed program whose binders differ, with templates of its points' simple types, an assignment makes the implications valid
/// exactly where the program checks under it.
pub fn typed_list_is_checks()
    ensures { TypedListIsChecks }
{
    list_is_checks();
    typed_is_ready();
}

/// Of a ready program, the greatest selection of instances that makes the flows of the list valid is the strongest solution where it makes
/// the whole list valid, and where there is any solution; where some demand is the first that isn't valid under it, there is no solution.
pub fn flows_solve()
    ensures { FlowsSolve }
{
    list_is_checks();
    unions_of_selections();
}

/// The implications of some programs, worked out by hand: numbers, functions and arrays.
pub fn examples()
    ensures sample { SampleExample }
    ensures typed { TypedExample }
    ensures read { ReadExample }
    ensures alias { AliasExample }
    ensures condition { IfExample }
    ensures quotient { DivideExample }
    ensures remainder { RemainderExample }
    ensures assert_false { AssertFalseExample }
    ensures polymorphic { PolymorphicExample }
    ensures higher_order { FunctionExample }
{}

/// The implications of some programs, worked out by hand: tuples, datatypes and maps.
pub fn data_examples()
    ensures tuple { TupleExample }
    ensures tuple_match { TupleMatchExample }
    ensures list { ListExample }
    ensures typed { TypedListExample }
    ensures missing_case { MissingCaseExample }
    ensures default { DefaultExample }
    ensures build { BuildExample }
    ensures maps { MapExample }
{}

/// The implications of some programs, worked out by hand: what blocks bind, truth values, and matches on types that are no datatypes.
pub fn block_examples()
    ensures inner_function { InnerFunctionExample }
    ensures inner_recursion { InnerRecursionExample }
    ensures bound_match { BoundMatchExample }
    ensures truth { TruthExample }
    ensures number_match { NumberMatchExample }
    ensures unit { UnitExample }
{}

/// The implications of some more programs, worked out by hand: numbers, truth values, calls and branches.
pub fn number_examples()
    ensures sum { SumExample }
    ensures partial_call { PartialCallExample }
    ensures guard { GuardExample }
    ensures nested_guard { NestedGuardExample }
    ensures assert_variable { AssertVariableExample }
    ensures truth_call { TruthCallExample }
    ensures truth_guard { TruthGuardExample }
    ensures quotient { QuotientExample }
    ensures zero_divisor { ZeroDivisorExample }
    ensures any { AnyExample }
    ensures known_part { KnownPartExample }
    ensures known { KnownExample }
    ensures read_of { ReadOfExample }
    ensures own_block { OwnBlockExample }
    ensures kept_name { KeptNameExample }
{}

/// The implications of some more programs, worked out by hand: each case of subtyping, one in another, and more of datatypes and maps.
pub fn type_examples()
    ensures triple { TripleExample }
    ensures nested_tuple { NestedTupleExample }
    ensures tuple_argument { TupleArgumentExample }
    ensures array_in_tuple { ArrayInTupleExample }
    ensures function_in_tuple { FunctionInTupleExample }
    ensures nested_array { NestedArrayExample }
    ensures truth_array { TruthArrayExample }
    ensures polymorphic_array { PolymorphicArrayExample }
    ensures some { SomeExample }
    ensures none { NoneExample }
    ensures no_function { NoFunctionExample }
    ensures unit_list { UnitListExample }
    ensures order { OrderExample }
    ensures otherwise { OtherwiseExample }
    ensures match_twice { MatchTwiceExample }
    ensures matrix { MatrixExample }
    ensures nested_map { NestedMapExample }
{}

/// A program whose assertions follow from its guards checks under every assignment, and one with an assertion of which nothing is known
/// checks under none.
pub fn judged_examples()
    ensures checks { GuardedChecks }
    ensures fails { UnguardedFails }
{}
