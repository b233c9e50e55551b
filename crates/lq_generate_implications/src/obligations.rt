//! What a program is asked for, in memory, and the implications of that.

mod counting;
mod implying;
mod obligation;

pub use counting::count_all;
pub use implying::imply_all;
pub use obligation::{Asked, Obligation, Sources};
