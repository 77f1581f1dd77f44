use ksql_nodes::Nodes;
use ksql_types::{CopyOf, Items};
use std::alloc::{AllocError, Global};

/// A part of a query between topics, before its topics have numbers: the topics that it reads, in the order of the
/// sides, its nodes, its number of partitions, and the topic that it writes.
#[derive(Debug, Drop)]
pub struct Stage {
    pub inputs: Links,
    pub nodes: Nodes,
    pub partitions: u32,
    pub output: Link,
}

/// The stages of a query, inputs first.
pub type Stages = Items<Stage>;

/// A topic that a stage reads or writes: a relation's, or a repartition topic of the query with this name. The
/// `relation` of a cut is the number that its places are compared with: that of the relation it was made from, or of
/// the leftmost source after a join.
#[derive(Clone, Copy, Debug, PartialEq, Eq)]
pub enum Link {
    Relation(u32),
    Cut { name: CutName, relation: u32 },
}

/// The topics that a stage reads.
pub type Links = Items<Link>;

/// The purpose of a repartition topic: one side of a join, or a grouping.
#[derive(Clone, Copy, Debug, PartialEq, Eq)]
pub enum CutName {
    Left,
    Right,
    Group,
}

impl CopyOf for Link {
    fn copy(&self, _alloc: Global) -> Result<Link, AllocError> {
        Ok(*self)
    }
}

impl CopyOf for Stage {
    fn copy(&self, alloc: Global) -> Result<Stage, AllocError> {
        Ok(Stage {
            inputs: self.inputs.copy(alloc)?,
            nodes: self.nodes.copy(alloc)?,
            partitions: self.partitions,
            output: self.output,
        })
    }
}
