ghost use Rattle.std.specs.Prelude.{◌≡◌, ◌<◌, ◌≤◌, ◌^◌, [], ◌∷◌, List, All, IfOk, IsSome, OnOk, length, map};
ghost use Rattle.ksql_place.specs.Ascending.{Rises};
ghost use Rattle.ksql_place.specs.Order.{record_cmp};
ghost use Rattle.ksql_place.specs.declared.change.SourceRecord.{SourceRecord as OneRecord};
ghost use Rattle.record_codec.specs.Spelling.{IsShort};
ghost use Rattle.node_tests.specs.Plain.{AreFiltered};
ghost use Rattle.core_state.specs.Routes.{routes_of};
ghost use Rattle.core_state.specs.Shelf.{ShelfOpens};
ghost use Rattle.core_state.specs.declared.log.LogEntry.TheVariants.{Fed};
ghost use Rattle.topic_log.specs.Shelves.{AreTopics, part_at, routes_in, shelf_of, topics_of};

use crate::changes::{column, int_column};
use core_state::Proposal;
use ksql_nodes::Node;
use ksql_place::{Body, Decoded, SourceRecord, Stamp};
use ksql_types::{Chars, Items, Key, SqlType, TaskName, TopicSpec, Value, Writer};
use std::alloc::{AllocError, Global};
use task_core::{Moved, Task};
use topic_log::Broker;
use topology::{Sub, SubInput};

/// A topic of one partition.
#[tactic(auto, unfolding(ksql_types::specs::Text::longest_text))]
fn topic(alloc: Global, number: u32, writer: Option<Writer>) -> Result<TopicSpec, AllocError>
    ensures number { IfOk result (λ topic. topic.number ≡ number) }
    ensures partitions { IfOk result (λ topic. topic.partitions ≡ 1) }
    ensures writer { IfOk result (λ topic. topic.writer ≡ writer) }
{
    Ok(TopicSpec {
        number,
        name: Chars::of(String::new(alloc))?,
        partitions: 1,
        writer,
    })
}

/// A source, and a topic that sub-topology 0 writes.
fn two_topics(alloc: Global) -> Result<Vec<TopicSpec>, AllocError>
    ensures topics { IfOk result (λ topics. AreTopics topics.items) }
    ensures count { IfOk result (λ topics. length topics.items ≡ 2) }
    ensures source { IfOk result (λ topics. (routes_of topics.items).writers 0 ≡ []) }
{
    let writer = Writer {
        sub: 0,
        partitions: 1,
    };
    let source = topic(alloc, 0, None)?;
    let written = topic(alloc, 1, Some(writer))?;
    Ok(vec![in alloc; source, written]?)
}

/// The nodes that keep the rows whose third cell is true, and select the second one.
fn filtered(alloc: Global) -> Result<Vec<Node>, AllocError>
    ensures { IfOk result (λ nodes. AreFiltered nodes.items) }
{
    let filter = Node::Filter {
        on: column(2, SqlType::Bool),
    };
    let select = Node::Select {
        keys: Items::of(Vec::new(alloc)),
        values: Items::of(vec![in alloc; int_column(1)]?),
    };
    let nodes = vec![in alloc; filter, select]?;
    Ok(nodes)
}

/// A sub-topology that reads topic 0, whose rows have one key column, and writes topic 1.
fn reading(alloc: Global, nodes: Vec<Node>) -> Result<Sub, AllocError>
    ensures nodes { IfOk result (λ sub. sub.nodes ≡ nodes.items) }
    ensures inputs { IfOk result (λ sub. sub.inputs ≡ record { topic = 0; relation = 0; keys = 1 } ∷ []) }
{
    let input = SubInput {
        topic: 0,
        relation: 0,
        keys: 1,
    };
    let inputs = vec![in alloc; input]?;
    Ok(Sub {
        number: 0,
        query: 1,
        partitions: 1,
        inputs: Items::of(inputs),
        nodes: Items::of(nodes),
        output: 1,
    })
}

/// A record of the first feed, with the key 7.
fn fed_record(
    alloc: Global,
    offset: u64,
    number: i32,
    is_kept: bool,
) -> Result<SourceRecord, AllocError>
    ensures stamp { IfOk result (λ r. r.stamp ≡ record { feed = 1; high = 9; topic = 0; part = 0; offset = offset }) }
    ensures short { IfOk result (λ r. (r.time ≤ 2 ^ 53) × All IsShort r.key) }
{
    let stamp = Stamp {
        feed: 1,
        high: 9,
        topic: 0,
        part: 0,
        offset,
    };
    let row = vec![in alloc; Value::Int(number), Value::Bool(is_kept)]?;
    Ok(SourceRecord {
        stamp,
        time: 9,
        key: Key::of(vec![in alloc; Value::Int(7)]?),
        value: Decoded::Good(Items::of(row)),
    })
}

/// Two records, of which the second is kept.
fn two_records(alloc: Global) -> Result<Vec<SourceRecord>, AllocError>
    ensures ascends { IfOk result (λ records. Rises record_cmp records.items) }
    ensures feed { IfOk result (λ records. All (λ r. r.stamp.feed ≡ 1) records.items) }
    ensures topic { IfOk result (λ records. All (λ r. r.stamp.topic ≡ 0) records.items) }
    ensures part { IfOk result (λ records. All (λ r. r.stamp.part ≡ 0) records.items) }
    ensures short { IfOk result (λ records. All (λ r. (r.time ≤ 2 ^ 53) × All IsShort r.key) records.items) }
{
    let lost = fed_record(alloc, 0, 5, false)?;
    let kept = fed_record(alloc, 1, 6, true)?;
    Ok(vec![in alloc; lost, kept]?)
}

/// Feeds the two records to a broker without feeds, whose topic 0 is a source.
fn feed_two(alloc: Global, broker: &mut Broker) -> Result<(), AllocError>
    requires opens { ShelfOpens (routes_in broker.old) (shelf_of broker.old) }
    requires source { (routes_in broker.old).writers 0 ≡ [] }
    requires part { IsSome (part_at broker.old 0 0) }
    ensures topics { topics_of broker.new ≡ topics_of broker.old }
    ensures shown { OnOk result ((records : List OneRecord) × ((shelf_of broker.new).shown 0 0 ≡ map Fed records)
        × All (λ r. (r.time ≤ 2 ^ 53) × All IsShort r.key) records) }
{
    broker.feed(alloc, two_records(alloc)?)?;
    Ok(())
}

/// Steps a task of the third generation over a broker.
fn stepped(alloc: Global, broker: &Broker) -> Result<Moved, AllocError>
    requires part { IsSome (part_at broker.now 0 0) }
    requires shown { (records : List OneRecord) × ((shelf_of broker.now).shown 0 0 ≡ map Fed records)
        × All (λ r. (r.time ≤ 2 ^ 53) × All IsShort r.key) records }
{
    let nodes = filtered(alloc)?;
    let sub = reading(alloc, nodes)?;
    let task = Task::fresh(alloc, &sub, TaskName { sub: 0, part: 0 }, 3)?;
    task.advance(alloc, broker)
}

/// A task that has gone over a feed of two records.
fn moved(alloc: Global) -> Result<Moved, AllocError> {
    let topics = two_topics(alloc)?;
    let mut broker = Broker::new(alloc, topics.as_slice())?;
    if broker.partitions(0) != 1 {
        return Err(AllocError);
    }
    feed_two(alloc, &mut broker)?;
    if broker.partitions(0) != 1 {
        return Err(AllocError);
    }
    stepped(alloc, &broker)
}

/// What a proposal is of, and its rows of one number.
fn shown(alloc: Global, proposal: &Proposal) -> Result<String, AllocError> {
    let Proposal {
        from,
        to,
        generation,
        ..
    } = proposal;
    let entries = proposal.entries.items().len();
    let mut shown = format!(in alloc; "from {from} to {to} of {generation} with {entries}")?;
    for output in proposal.outputs.items() {
        if let Body::Said(row) = &output.body
            && let [Value::Int(number)] = row.items()
        {
            write!(shown, ", {number}")?;
        }
    }
    Ok(shown)
}

/// How far a task goes over a feed of two records, and what it proposes.
pub fn gone(alloc: Global) -> Result<String, AllocError> {
    let moved = moved(alloc)?;
    let TaskName { sub, part } = moved.task.name();
    let (done, generation) = (moved.task.done(), moved.task.generation());
    let proposal = moved.proposal.ok_or(AllocError)?;
    let shown = shown(alloc, &proposal)?;
    format!(in alloc; "{sub}_{part} done {done} of {generation}: {shown}")
}
