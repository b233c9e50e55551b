//! What subtypings add: their implications, the environments of the names that they bring, and how many implications there are.

mod counting;
mod environments;
mod fields;
mod functions;
mod given;
mod matrices;
mod recursive;
mod splitting;
mod tops;

pub use counting::implication_count;
pub use environments::{with_binder, with_name};
pub use fields::ConstructorFields;
pub use given::Given;
pub use matrices::{Left, cells};
pub use recursive::fields_in;
pub use splitting::split;
