//! Instances of qualifiers: at a scope and a shape, the predicates of the qualifiers of that shape with visible symbols put for their
//! placeholders.
#![tactic(auto)]

mod counting;
mod finding;
mod instance;
mod listing;
mod lists;
mod made;
mod replacing;
mod scope;
mod scopes;
mod symbols;
mod unknowns;

pub use finding::{QualError, all_instances, instances};
pub use lists::{InstanceList, Instances};
pub use scope::{Scope, Visible};
pub use scopes::{Addition, Scopes};
pub use unknowns::{Unknown, Unknowns};
