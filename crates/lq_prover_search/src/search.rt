//! The search for a point of a path, or for a tree that proves it.

mod applied;
mod branch;
mod choosing;
mod counting;
mod givens;
mod inner;
mod laws;
mod notes;
mod open;
mod opening;
mod order;
mod pair;
mod pairs;
mod parts;
mod probing;
mod reading;
mod search_path;
mod searching;
mod sparing;
mod taking;
mod ways;

pub use counting::{Counts, count_added};
pub use givens::Givens;
pub use laws::{pairs_are_split_by_their_ways, settled_paths_are_met};
pub use opening::first_open;
pub use pair::Pair;
pub use pairs::all_pairs;
pub use reading::take_reading;
pub use search_path::SearchPath;
pub use searching::{Searched, search_reading};
pub use sparing::without_reading;
