use ksql_nodes::Nodes;
use ksql_types::{CopyOf, Items, TopicSpec};
use std::alloc::{AllocError, Global};

/// A program in the form in which it runs: its topics (those of its relations, then the repartition topics) and its
/// sub-topologies.
#[derive(Debug, Drop)]
pub struct Topology {
    pub topics: Topics,
    pub subs: Subs,
}

/// Topics; a topic's number is its index.
pub type Topics = Items<TopicSpec>;

/// Sub-topologies in the order of their numbers, inputs first.
pub type Subs = Items<Sub>;

/// A sub-topology of the query of item `query`. It has one task for each of its partitions, which reads that partition
/// of each input, and its tasks write the topic `output`.
#[derive(Debug, Drop)]
pub struct Sub {
    pub number: u32,
    pub query: u32,
    pub partitions: u32,
    pub inputs: SubInputs,
    pub nodes: Nodes,
    pub output: u32,
}

/// The inputs of a sub-topology, in the order of the sides.
pub type SubInputs = Items<SubInput>;

/// A topic that a sub-topology reads. `relation` is the number that its places are compared with, and `keys` the number
/// of key columns put in front of its rows: none for a repartition topic, whose rows are whole.
#[derive(Clone, Copy, Debug, PartialEq, Eq)]
pub struct SubInput {
    pub topic: u32,
    pub relation: u32,
    pub keys: u32,
}

impl CopyOf for SubInput {
    fn copy(&self, _alloc: Global) -> Result<SubInput, AllocError> {
        Ok(*self)
    }
}

impl CopyOf for Sub {
    fn copy(&self, alloc: Global) -> Result<Sub, AllocError> {
        Ok(Sub {
            number: self.number,
            query: self.query,
            partitions: self.partitions,
            inputs: self.inputs.copy(alloc)?,
            nodes: self.nodes.copy(alloc)?,
            output: self.output,
        })
    }
}

impl CopyOf for Topology {
    fn copy(&self, alloc: Global) -> Result<Topology, AllocError> {
        Ok(Topology {
            topics: self.topics.copy(alloc)?,
            subs: self.subs.copy(alloc)?,
        })
    }
}
