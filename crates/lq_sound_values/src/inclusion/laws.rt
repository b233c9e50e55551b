// Laws of the definitions. Nothing is run.
ghost use Rattle.lq_sound_values.specs.Inclusion.Laws.{LikeTypesFit, NamesAreBound, PutTypesFit, SubtypesFit, TypesThin};

use crate::inhabitants::datatypes_fit;
use lq_logic_predicates::whole_numbers_are_a_point;
use lq_refined_types::parts::{substitutions, truth_under_substitution};

/// What inhabits a type inhabits its supertypes, where the values of names make the hypotheses true: the bridge from validity to values. So
/// they do where a name gets a value that has its type's top.
///
/// Valid implications are true of values since whole numbers and truth values make a point of each.
pub fn subtypes_fit()
    ensures subtypes { SubtypesFit }
    ensures bound { NamesAreBound }
{
    whole_numbers_are_a_point();
    truth_under_substitution();
    substitutions();
    datatypes_fit();
}

/// Of two types of one form whose parts follow from one another, each at values of its own, what inhabits the one inhabits the other: at
/// values that agree on what a type speaks of, and with something put for names where they have the values of that.
pub fn like_types_fit()
    ensures like { LikeTypesFit }
    ensures thin { TypesThin }
    ensures put { PutTypesFit }
{
    whole_numbers_are_a_point();
    truth_under_substitution();
    substitutions();
    datatypes_fit();
}
