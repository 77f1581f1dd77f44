//! The steps of queries: what a node of a sub-topology gives for each change that reaches it, from streams and tables.
#![tactic(auto)]

mod laws;
mod node;

pub use laws::{chains_are_cut, chains_are_one, nodes_are_local, tables_are_summed};
pub use node::{Node, Nodes, Side};
