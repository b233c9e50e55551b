// Laws of the definitions. Nothing is run.
ghost use Rattle.lq_refined_templates.specs.Templates.Examples.{ArrayOfLists, Insertion, ListOfLists, NamedArgument, NoNames, TupleInTuple, TwoParameters};
ghost use Rattle.lq_refined_templates.specs.Templates.Laws.{TemplatesErase, TemplatesNumber};

/// A fresh template has the simple type for which it was made.
pub fn templates_are_of_their_types()
    ensures { TemplatesErase }
{}

/// The unknowns of a fresh template are numbered one after another from the first number on, in the order arguments, matrix, top.
pub fn templates_number_their_unknowns()
    ensures { TemplatesNumber }
{}

/// The templates of some types, worked out by hand.
pub fn examples()
    ensures named_argument { NamedArgument }
    ensures no_names { NoNames }
    ensures insertion { Insertion }
    ensures tuple_in_tuple { TupleInTuple }
    ensures list_of_lists { ListOfLists }
    ensures array_of_lists { ArrayOfLists }
    ensures two_parameters { TwoParameters }
{}
