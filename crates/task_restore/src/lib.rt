//! Tasks restored from their changelogs.
#![tactic(auto)]

mod restoring;

pub use restoring::restore;
