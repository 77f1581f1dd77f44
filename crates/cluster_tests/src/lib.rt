//! Scripts on a cluster: from a script, its topic files and some steps to what the broker then has.
#![tactic(auto)]

mod fault;
mod files;
mod running;
mod standing;

pub use fault::Fault;
pub use running::{Ran, run};
pub use standing::Standing;

#[cfg(test)]
mod tests;
