//! Scripts: from bytes to a program, or to the first refusal.
#![tactic(auto)]

mod fault;
mod laws;
mod reading;

pub use fault::ScriptFault;
pub use laws::{one_script, some_script};
pub use reading::{program_of_script, trees_of_script};
