// What a program is asked for.
use lq_base_names::Place;
use lq_logic_predicates::Pred;
use lq_refined_substitution::implications::Reason;
use lq_refined_substitution::substitution::Scopes;
use lq_refined_subtyping::split::ConstructorFields;

/// A predicate that is to hold, or two types by their numbers, of which the left one is to be a subtype of the right one.
#[derive(Debug, Drop)]
pub enum Asked {
    Holds(Pred),
    Fits(usize, usize),
}

/// What is asked for in an environment, at a place and for a reason.
#[derive(Debug, Drop)]
pub struct Obligation {
    pub env: u64,
    pub asked: Asked,
    pub place: Place,
    pub reason: Reason,
}

/// The scopes of the unknowns, and the types of the constructors' fields.
#[derive(Clone, Copy)]
pub struct Sources<'a> {
    pub scopes: &'a Scopes,
    pub fields: &'a ConstructorFields,
}
