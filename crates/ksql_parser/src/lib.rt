//! The parser: the trees of a script's statements, or the first refusal.
#![tactic(auto)]

mod fault;
mod limits;
mod parsing;
mod statement;
mod symbols;
mod words;

pub use fault::ParseFault;
pub use ksql_types::Code;
pub use parsing::{one_list, one_tree, parse};
