//! The cluster: a broker, the tasks of a topology at their workers, and the effects of a schedule's steps on them.
#![tactic(auto)]

mod cluster;
mod rounds;
mod seats;
mod sources;
mod workers;

pub use cluster::{Cluster, drive};
pub use topology::{Lined, Schedule, Step, Topology};
