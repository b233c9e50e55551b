// Texts with their names bound.
use crate::texts::ScopedTexts;
use lq_base_names::NameTable;

/// A program, measures and qualifiers with their names bound, and the table of their names.
#[derive(Drop)]
pub struct BoundTexts {
    pub names: NameTable,
    pub texts: ScopedTexts,
}
