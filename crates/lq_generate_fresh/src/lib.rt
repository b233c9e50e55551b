//! Templates in tables, with the scopes of their unknowns.
#![tactic(auto)]

pub mod copies;
pub mod fresh;
pub mod scopes;
