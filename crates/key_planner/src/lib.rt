//! The stages of a query: its plan, cut where a step needs another key than its input has.
#![tactic(auto)]

mod keys;
mod made;
mod relations;
mod staging;

pub use made::Keyed;
pub use staging::keyed;
pub use topology::{CutName, Link, Links, Stage, Stages};
