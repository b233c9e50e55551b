//! The rules of types, node by node, as equations between the types of nodes and binders.

mod gathering;
mod node;
mod pattern;
mod row;
mod rules;
mod shape;
mod solving;
mod system;
mod template;

pub use gathering::{Rules, gather};
pub use system::System;
pub use template::{Constructors, Template};
