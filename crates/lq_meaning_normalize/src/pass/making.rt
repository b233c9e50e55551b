// Bindings to made names.
use lq_meaning_normal_tree::Binding;
use std::alloc::Global;

/// The bindings of the block that is being made, and the next made name.
#[derive(Drop)]
pub struct Pass {
    pub alloc: Global,
    pub next: u32,
    pub bindings: Vec<Binding>,
}
