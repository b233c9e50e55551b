//! What operations on types keep of the names of which types speak: laws.

mod laws;

pub use laws::names_are_kept;
