//! Names, binders, places and owned texts, which every layer speaks of.
#![tactic(auto)]

mod laws;
mod limits;
mod name;
mod name_table;
mod names;
mod operation;
mod place;
mod text;

pub use laws::names_of_lists;
pub use limits::{LEVEL_LIMIT, LITERAL_LIMIT};
pub use name::{Binder, Ident, Name};
pub use name_table::NameTable;
pub use names::Names;
pub use operation::{ArithOp, CompareOp};
pub use place::{Place, TextKind};
pub use text::{NameText, TextBuf};
