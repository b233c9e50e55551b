//! The constructors of a program as nodes that can be copied.

mod building;
mod laws;
mod table;
mod tasks;

pub use building::template_of;
pub use laws::signatures_agree;
pub use table::constructors_of;
