//! What programs are asked for is well sorted: definitions and laws.

mod laws;

pub use laws::obligations_are_sorted;
