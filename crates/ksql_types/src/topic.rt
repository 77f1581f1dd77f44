use crate::chars::Chars;
use crate::copying::CopyOf;
use std::alloc::{AllocError, Global};

/// A topic of a topology, whose number is its index among the topics. `partitions` is 1 to 64. It is a source, or the
/// tasks of one sub-topology write it.
#[derive(Debug, Drop)]
pub struct TopicSpec {
    pub number: u32,
    pub name: Chars,
    pub partitions: u32,
    pub writer: Option<Writer>,
}

/// The tasks that write a topic: those of sub-topology `sub`, which has `partitions` partitions.
#[derive(Clone, Copy, Debug, PartialEq, Eq)]
pub struct Writer {
    pub sub: u32,
    pub partitions: u32,
}

impl CopyOf for TopicSpec {
    fn copy(&self, alloc: Global) -> Result<TopicSpec, AllocError> {
        Ok(TopicSpec {
            number: self.number,
            name: self.name.copy(alloc)?,
            partitions: self.partitions,
            writer: self.writer,
        })
    }
}
