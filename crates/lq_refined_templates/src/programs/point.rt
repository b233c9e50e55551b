// Points, where a program takes templates.
use lq_base_names::Binder;

/// What a point takes: its scope by its number in a table of scopes, and its types by their numbers in a table of types.
#[derive(Drop)]
pub enum Point {
    /// A fresh template; of a function that is written directly with the names of its arguments, the first one first.
    Whole(u64, Vec<Option<Binder>>, u32),
    /// A template without an unknown at its top: that of a constructor with fields.
    Inner(u64, u32),
    /// The same of a constructor without a field.
    Constant(u64, u32),
    /// The elements of an empty map.
    Empty(u64, u32),
    /// Templates for the type variables of a use.
    Each(u64, Vec<u32>),
    /// No rule takes a template here.
    Idle(Vec<u32>),
}
