//! The commit of a task's proposal, which takes effect at once or is fenced.
#![tactic(auto)]

mod verdict;

pub use verdict::{Verdict, commit, fence};
