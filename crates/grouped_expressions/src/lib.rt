//! Typed trees: which forms are the same, and how a tree reads after a grouping.
#![tactic(auto)]

mod grouped;
mod laws;
mod same;

pub use grouped::after;
pub use laws::sameness_is_equality;
pub use same::{same_node, same_tree};
