//! Topologies: the sub-topologies that queries are cut into, the topics between them, their tasks, and the content of
//! each partition of each topic.
#![tactic(auto)]

mod schedule;
mod stage;
mod tasks;
mod topology;

pub use ksql_types::{TaskName, TopicSpec, Writer};
pub use schedule::{Count, Counts, Lined, Schedule, Step, Steps};
pub use stage::{CutName, Link, Links, Stage, Stages};
pub use tasks::{chain_of, tasks_of};
pub use topology::{Sub, SubInput, SubInputs, Subs, Topics, Topology};
