//! The operators of a sub-topology's nodes in a row.
#![tactic(auto)]

mod along;
mod chain;
mod op;

pub use chain::{Chain, Entry};
pub use op::Op;
