//! The topology of a program, and the text that explains it.
#![tactic(auto)]

mod building;
mod text;

pub use building::build;
pub use text::describe;
pub use topology::Topology;
