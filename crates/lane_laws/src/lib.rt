//! Laws of partitions: the tasks of a sub-topology give what its nodes give, partition by partition.
#![tactic(auto)]

mod laws;

pub use laws::nodes_are_laned;
