//! Difference rows: a table that decides them by potentials, after Cotton and Maler (2006).
#![tactic(auto)]

mod arc;
mod cycle;
mod graph;
mod number;
mod pass;
mod solve;
mod table;
mod trail;
mod vertex;

pub use table::DistanceTable;
