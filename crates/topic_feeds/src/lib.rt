//! The records of topic files when they are fed: partitions, offsets and stamps.
#![tactic(auto)]

mod feeding;
mod laws;

pub use feeding::Reached;
pub use laws::feeds_are_merged;
