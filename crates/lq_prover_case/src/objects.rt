//! Facts that objects are one or differ, as they come and go.

mod fact;
mod laws;
mod objects;

pub use fact::ObjectFact;
pub use laws::objects_say_what_facts_say;
pub use objects::Objects;
