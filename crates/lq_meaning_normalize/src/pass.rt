//! Programs brought to their normal form, in one pass.

mod blocks;
mod laws;
mod making;
mod names;
mod nodes;
mod patterns;
mod value;

pub use blocks::{choice_of, matched};
pub use laws::pass_agrees;
pub use making::Pass;
pub use nodes::{arithmetic, is_choice, is_connective, one_node, three_node, two_node};
pub use value::Normal;
