//! Tasks: what a sub-topology makes of the entries of one partition, with the stores of its nodes.
#![tactic(auto)]

mod feeds;
mod inputs;
mod places;
mod reader;
mod running;
mod task;
mod whole;

pub use task::{Moved, Task};
