//! Laws of what is fed: records of topic files fit the program that they are fed to.
#![tactic(auto)]

mod laws;

pub use laws::{feeds_fit, files_fit};
