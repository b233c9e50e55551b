// The way from an environment up to one whose facts are kept.
use lq_refined_substitution::substitution::Part;

/// An environment that isn't kept, with the hypothesis that it has behind those of its parent.
#[derive(Clone, Copy)]
pub(crate) struct Step<'a> {
    pub(crate) env: u64,
    pub(crate) part: &'a Part,
}
