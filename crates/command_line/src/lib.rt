//! The command line: what the program is asked to do.
#![tactic(auto)]

mod asked;
mod fault;
mod options;
mod reading;

pub use asked::Command;
pub use fault::WordsFault;
pub use reading::read_words;
