//! Laws of topologies: the tasks of all partitions send what the queries mean, partition by partition.
#![tactic(auto)]

mod laws;

pub use laws::{
    sends_are_bounded, sends_are_by_feeds, sends_are_placed, sends_have_columns,
    the_chain_is_the_longest_path, topology_means_its_queries,
};
