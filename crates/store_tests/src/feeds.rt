ghost use Rattle.std.specs.Prelude.{◌≡◌, ℕ, ◌<◌, [], All, IfOk, IsSome};
ghost use Rattle.ksql_place.specs.Ascending.{Rises};
ghost use Rattle.ksql_place.specs.Order.{record_cmp};
ghost use Rattle.topic_log.specs.Feeding.{RiseApart};
ghost use Rattle.topic_log.specs.Shelves.{part_at, routes_in, shelf_of, topics_of};

use ksql_place::{Decoded, SourceRecord, Stamp};
use ksql_types::Key;
use std::alloc::{AllocError, Global};
use topic_log::Broker;

/// A stamp of the first feed and topic 0.
fn stamp(part: u32, offset: u64) -> Stamp
    ensures feed { result.feed ≡ 1 }
    ensures high { result.high ≡ 9 }
    ensures topic { result.topic ≡ 0 }
    ensures part { result.part ≡ part }
    ensures offset { result.offset ≡ offset }
{
    Stamp {
        feed: 1,
        high: 9,
        topic: 0,
        part,
        offset,
    }
}

fn source_record(alloc: Global, stamp: Stamp) -> SourceRecord
    ensures { result.stamp ≡ stamp }
{
    SourceRecord {
        stamp,
        time: 9,
        key: Key::of(Vec::new(alloc)),
        value: Decoded::Tombstone,
    }
}

/// Two records in partition 0 of topic 0.
fn two_records(alloc: Global) -> Result<Vec<SourceRecord>, AllocError>
    ensures rises { IfOk result (λ records. Rises record_cmp records.items) }
    ensures feed { IfOk result (λ records. All (λ r. r.stamp.feed ≡ 1) records.items) }
    ensures topic { IfOk result (λ records. All (λ r. r.stamp.topic ≡ 0) records.items) }
    ensures part { IfOk result (λ records. All (λ r. r.stamp.part ≡ 0) records.items) }
{
    let first = source_record(alloc, stamp(0, 0));
    let second = source_record(alloc, stamp(0, 1));
    Ok(vec![in alloc; first, second]?)
}

/// A record in partition 1 of topic 0, and then two in partition 0, which go before it in the order of consumption.
fn three_records(alloc: Global) -> Result<Vec<SourceRecord>, AllocError>
    ensures apart { IfOk result (λ records. RiseApart records.items) }
    ensures feed { IfOk result (λ records. All (λ r. r.stamp.feed ≡ 1) records.items) }
    ensures topic { IfOk result (λ records. All (λ r. r.stamp.topic ≡ 0) records.items) }
    ensures part { IfOk result (λ records. All (λ r. r.stamp.part < 2) records.items) }
{
    let mut others = two_records(alloc)?;
    let mut records = vec![in alloc; source_record(alloc, stamp(1, 0))]?;
    records.append(&mut others)?;
    Ok(records)
}

/// Feeds the three records to a broker whose topic 0 is a source of two partitions.
pub fn feed_three(alloc: Global, broker: &mut Broker) -> Result<u64, AllocError>
    requires first { (shelf_of broker.old).fed ≡ 0 }
    requires source { (routes_in broker.old).writers 0 ≡ [] }
    requires parts { (part : ℕ) → part < 2 → IsSome (part_at broker.old 0 part) }
    ensures { topics_of broker.new ≡ topics_of broker.old }
{
    broker.feed(alloc, three_records(alloc)?)
}
