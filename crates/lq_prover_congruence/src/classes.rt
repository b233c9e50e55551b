//! Classes of terms under the least congruence, with undo.

mod adding;
mod classes;
mod closing;
mod differing;
mod forest;
mod head;
mod ids;
mod implied;
mod joining;
mod naming;
mod noting;
mod pair_list;
mod reasons;
mod representing;
mod state;
mod stepping;
mod steps;
mod table;
mod tracing;
mod undoing;

pub use classes::Classes;
pub use head::Head;
pub use ids::Ids;
pub use implied::Implied;
pub use pair_list::Pairs;
pub use reasons::Reasons;
pub use steps::{Pair, Step};
