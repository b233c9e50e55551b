//! That the uses of names in normal forms fit.

mod laws;

pub use laws::{normal_uses_fit, typed_uses_fit};
