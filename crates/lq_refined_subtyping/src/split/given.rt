// What a subtyping is made over.
use crate::split::fields::ConstructorFields;
use lq_base_names::Place;
use lq_refined_substitution::implications::Reason;
use lq_refined_substitution::substitution::Scopes;

/// The scopes of the unknowns and the fields of the constructors, and what the implications come of.
pub struct Given<'a> {
    pub scopes: &'a Scopes,
    pub fields: &'a ConstructorFields,
    pub origin: (Place, Reason),
}
