//! The broker and its operations.
ghost use Rattle.std.specs.Prelude.{◌≡◌, ℕ, ◌+◌, ◌<◌, ◌^◌, All, IfErr, IfOk, IsSome, OnErr, OnOk, Some, length};
ghost use Rattle.ksql_place.specs.Ascending.{ascending};
ghost use Rattle.ksql_place.specs.Order.{record_cmp};
ghost use Rattle.ksql_place.specs.Routing.{partitions_of};
ghost use Rattle.core_state.specs.declared.log.Proposal.{Proposal as OneProposal};
ghost use Rattle.core_state.specs.Routes.{IsWriter};
ghost use Rattle.core_state.specs.Shelf.{ShelfApplies, ShelfFeeds, ShelfOpens, ShelfRaises, ShelfStays, shelf_closed};
ghost use Rattle.topic_log.specs.declared.prepared.Prepared.{Prepared as OnePrepared};
ghost use Rattle.topic_log.specs.Feeding.{RiseApart};
ghost use Rattle.topic_log.specs.Order.{IsInPlaceOrder};
ghost use Rattle.topic_log.specs.Ready.{IsProposal, IsReady};
ghost use Rattle.topic_log.specs.Entries.{entries_in};
ghost use Rattle.topic_log.specs.Shelves.{AreTopics, IsSourcePart, part_at, routes_in, shelf_of, task_at, topics_of};

use crate::commits::commit;
use crate::feeds::feed;
use crate::opening::{fresh_topics, written_topics};
use crate::prepared::{Prepared, prepare};
use crate::shelves::{Entries, Shelves, TaskShelf, closed_of};
use core_state::Proposal;
use ksql_place::SourceRecord;
use ksql_types::{StoreEntry, TaskName, TopicSpec};
use std::alloc::{AllocError, Global};
use std::collections::BTreeMap;
use std::marker::Model;

/// The topics of a topology, with what was fed to them and what the tasks committed.
#[derive(Drop)]
pub struct Broker {
    inner: Shelves,
    // The number of the topic that each sub-topology writes.
    written: BTreeMap<u32, u32>,
}

impl Model for Broker {
    ghost use Rattle.topic_log.specs.declared.shelves.Shelves.{Shelves as OneShelves};
    ghost use Rattle.std.specs.Prelude.{◌≡◌, ℕ, length, unwrap_or};
    ghost use Rattle.std.specs.BTreeMap.{get};
    ghost use Rattle.std.specs.Ordering.{nat_cmp};
    ghost use Rattle.core_state.specs.Routes.{topic_from};
    ghost use Rattle.topic_log.specs.Shelves.{AreShelves, topics_of};

    ghost Value = { OneShelves };

    ghost view = { λ b. b.inner };

    ghost invariant = { λ b. AreShelves b.inner
        × ((sub : ℕ) → unwrap_or (get nat_cmp b.written sub) (length b.inner.topics.items) ≡ topic_from 0 (topics_of b.inner) sub) };
}

impl Broker {
    /// The topics before anything is fed. Each topic's number is its index, each topic and its writer have 1 to 64
    /// partitions, and each sub-topology writes at most one topic.
    pub fn new(alloc: Global, topics: &[TopicSpec]) -> Result<Broker, AllocError>
        requires { AreTopics topics.now }
        ensures topics { IfOk result (λ broker. topics_of broker ≡ topics.now) }
        ensures opens { IfOk result (λ broker. ShelfOpens (routes_in broker) (shelf_of broker)) }
    {
        let written = written_topics(alloc, topics)?;
        let fresh = fresh_topics(alloc, topics)?;
        let inner = Shelves {
            fed: 0,
            topics: fresh,
        };
        Ok(Broker { inner, written })
    }

    /// Makes a feed of records visible, and returns the feed's number. The records belong to partitions of topics that
    /// no task writes, to the feed after the last one, and come in any order in which the stamps of each partition
    /// rise. After an error the broker is unchanged.
    pub fn feed(&mut self, alloc: Global, records: Vec<SourceRecord>) -> Result<u64, AllocError>
        requires room { self.old.fed + 1 < 2 ^ 64 }
        requires rises_apart { RiseApart records.items }
        requires next_feed { All (λ r. r.stamp.feed ≡ self.old.fed + 1) records.items }
        requires sources { All (λ r. IsSourcePart self.old r.stamp.topic r.stamp.part) records.items }
        ensures topics { topics_of self.new ≡ topics_of self.old }
        ensures feeds { OnOk result (ShelfFeeds (routes_in self.old) (ascending record_cmp records.items) (shelf_of self.old) (shelf_of self.new)) }
        ensures number { IfOk result (λ feed. feed ≡ self.new.fed) }
        ensures kept { OnErr result (ShelfStays (routes_in self.old) (shelf_of self.old) (shelf_of self.new)) }
    {
        feed(&mut self.inner, alloc, records)
    }

    /// The number of the last feed.
    pub fn fed(&self) -> u64
        ensures { result ≡ (shelf_of self.now).fed }
    {
        self.inner.fed
    }

    /// The number of partitions of a topic.
    pub fn partitions(&self, topic: u32) -> u32
        requires { topic < length (topics_of self.now) }
        ensures number { result ≡ partitions_of (topics_of self.now) topic }
        ensures parts { (part : ℕ) → part < result → IsSome (part_at self.now topic part) }
    {
        self.inner.topics[topic as usize].spec.partitions
    }

    /// Each partition of each topic is there. This does nothing.
    pub fn has_parts(&self)
        ensures { (topic part : ℕ) → topic < length (topics_of self.now) → part < partitions_of (topics_of self.now) topic → IsSome (part_at self.now topic part) }
    {
        let _shelves = &self.inner;
    }

    /// The feed up to which a topic is closed: for a source the last feed, for any other topic the least feed that its
    /// writers committed.
    pub fn closed(&self, topic: u32) -> u64
        requires { topic < length (topics_of self.now) }
        ensures { result ≡ shelf_closed (routes_in self.now) (shelf_of self.now) topic }
    {
        closed_of(&self.inner.topics[topic as usize].tasks, self.inner.fed)
    }

    /// The entries of a partition up to its topic's closed feed, in the order of their places.
    pub fn visible(&self, topic: u32, part: u32) -> Entries<'_>
        requires { IsSome (part_at self.now topic part) }
        ensures value { entries_in result ≡ (shelf_of self.now).shown topic part }
        ensures in_order { IsInPlaceOrder (entries_in result) }
    {
        let shelf = &self.inner.topics[topic as usize].parts[part as usize];
        Entries {
            fed: shelf.fed.as_slice(),
            said: shelf.said.as_slice(),
        }
    }

    /// The last feed that a task committed.
    pub fn done(&self, task: TaskName) -> u64
        requires { IsWriter (routes_in self.now) task }
        ensures { result ≡ (shelf_of self.now).done task }
    {
        self.task(task).done
    }

    /// The newest generation of a task.
    pub fn newest(&self, task: TaskName) -> u64
        requires { IsWriter (routes_in self.now) task }
        ensures { result ≡ (shelf_of self.now).newest task }
    {
        self.task(task).newest
    }

    /// The changelog of a task's stores.
    pub fn logs(&self, task: TaskName) -> &[StoreEntry]
        requires { IsWriter (routes_in self.now) task }
        ensures { result.now ≡ (shelf_of self.now).logs task }
    {
        self.task(task).logs.as_slice()
    }

    /// Allocates all memory for the commit of a proposal. The broker's content is unchanged. On failure it hands the
    /// proposal back. What was prepared before stays ready, whether this succeeds or not.
    pub fn prepare(&mut self, alloc: Global, proposal: Proposal) -> Result<Prepared, Proposal>
        requires writer { IsWriter (routes_in self.old) proposal.task }
        requires proposal { IsProposal proposal }
        ensures topics { topics_of self.new ≡ topics_of self.old }
        ensures kept { ShelfStays (routes_in self.old) (shelf_of self.old) (shelf_of self.new) }
        ensures ready { IfOk result (λ made. IsReady self.new made proposal) }
        ensures kept_ready { (made : OnePrepared) (p : OneProposal) → IsReady self.old made p → IsReady self.new made p }
        ensures back { IfErr result (λ back. back ≡ proposal) }
    {
        let number = self.output(proposal.task);
        prepare(&mut self.inner, alloc, number, proposal)
    }

    /// Commits a proposal: the task's progress, its outputs and its changelog entries take effect at once. Outputs wait
    /// until their topic's closed feed reaches them. The proposal begins where the task's last commit ended. Takes no
    /// memory.
    pub fn apply(&mut self, prepared: Prepared)
        requires ready { (p : OneProposal) × IsReady self.old prepared p }
        requires begins { (shelf_of self.old).done prepared.task ≡ prepared.from }
        ensures topics { topics_of self.new ≡ topics_of self.old }
        ensures applies { (p : OneProposal) → IsReady self.old prepared p →
            ShelfApplies (routes_in self.old) p.task p (shelf_of self.old) (shelf_of self.new) }
    {
        let topic = self.output(prepared.task);
        commit(&mut self.inner.topics[topic], self.inner.fed, prepared);
    }

    /// Raises a task's newest generation, and returns it. Prepared commits stay prepared. Takes no memory.
    pub fn raise(&mut self, task: TaskName) -> u64
        requires writer { IsWriter (routes_in self.old) task }
        requires room { (shelf_of self.old).newest task + 1 < 2 ^ 64 }
        ensures topics { topics_of self.new ≡ topics_of self.old }
        ensures raises { ShelfRaises (routes_in self.old) task (shelf_of self.old) (shelf_of self.new) }
        ensures number { result ≡ (shelf_of self.new).newest task }
        ensures ready { (made : OnePrepared) (p : OneProposal) → IsReady self.old made p → IsReady self.new made p }
    {
        let topic = self.output(task);
        let kept = &mut self.inner.topics[topic].tasks[task.part as usize];
        kept.newest += 1;
        kept.newest
    }

    /// The broker's data about a task.
    fn task(&self, task: TaskName) -> &TaskShelf
        requires { IsWriter (routes_in self.now) task }
        ensures { task_at self.now task ≡ Some result.now }
    {
        let topic = self.output(task);
        &self.inner.topics[topic].tasks[task.part as usize]
    }

    /// The number of the topic that a task writes, or the number of topics if it writes none.
    fn output(&self, task: TaskName) -> usize
        ensures { result ≡ (routes_in self.now).output task }
    {
        match self.written.get(&task.sub) {
            Some(topic) => *topic as usize,
            None => self.inner.topics.len(),
        }
    }
}
