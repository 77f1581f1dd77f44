//! A state store of a task: a finite map from bytes to bytes that tracks what changed since the last commit.
#![tactic(auto)]

mod slots;
mod store;

pub use store::{Found, Store};
