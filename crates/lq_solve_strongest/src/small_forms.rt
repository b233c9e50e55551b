//! Predicates whose terms have small forms: implications between them can be gathered.

mod laws;
mod narrow;

pub use laws::narrow_implications_gather;
pub use narrow::is_narrow;
