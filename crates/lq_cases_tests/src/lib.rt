//! Tests of what no case in a file can say: trees that no text has, the fakes of the outside, what is taken back step by step, and each generic call at a
//! concrete type. They stand apart, so that no crate is proved twice for its tests.
#![tactic(auto)]

#[cfg(test)]
mod classes;
#[cfg(test)]
mod folders;
#[cfg(test)]
mod rings;
#[cfg(test)]
mod trees;
#[cfg(test)]
mod type_tables;
#[cfg(test)]
mod worklists;
