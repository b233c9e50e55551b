//! The grammars of the three texts as data, and one reader for all of them.
#![tactic(auto)]

mod error;
mod kind;
mod laws;
mod reader;
mod rule;
mod symbol;
mod table;

pub use error::ReadError;
pub use kind::Kind;
pub use laws::{levels_of_readings, one_level, one_reading, some_level, within_limit};
pub use reader::read;
pub use rule::{
    BindingPart, EntryPart, ExpressionPart, PatternPart, PredPart, ProgramPart, Rule, TypePart,
};
pub use symbol::{
    Action, BlockAction, EntryAction, Event, ItemAction, OperandAction, PatternAction, PredAction,
    Symbol, TypingAction,
};
