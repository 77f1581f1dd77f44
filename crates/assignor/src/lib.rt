//! Which worker owns which task: assigned at the start, and whenever a worker comes or goes.
#![tactic(auto)]

mod assigning;
mod assignment;
mod laws;
mod loads;
mod places;
mod previous;

pub use assigning::assign;
pub use assignment::{Assignment, Owned};
pub use laws::{balanced, each_task_owned, keeps_all, one_assignment, stays_within_share};
