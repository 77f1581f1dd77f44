//! Feeds of records.
ghost use Rattle.std.specs.Prelude.{◌≡◌, ◌+◌, ◌<◌, ◌^◌, [], All, IfOk, IfSome, OnErr, OnOk, length, map, slice_get, slice_index};
ghost use Rattle.ksql_place.specs.Ascending.{ascending};
ghost use Rattle.ksql_place.specs.Order.{record_cmp};
ghost use Rattle.core_state.specs.Shelf.{ShelfFeeds, ShelfStays};
ghost use Rattle.topic_log.specs.Feeding.{count_in, HasShownRoom, IsCounted, IsThere, RiseApart, WillShowAll};
ghost use Rattle.topic_log.specs.Shelves.{AreShelves, IsSourcePart, routes_in, shelf_of, topics_of};
ghost use Rattle.topic_log.specs.Views.{part_view, topic_view, EachAt};

use crate::shelves::{PartShelf, Shelves, TopicShelf};
use ksql_place::SourceRecord;
use std::alloc::{AllocError, Global};

/// Makes a feed of records visible, in each partition in the order given, and returns the feed's number. After an error
/// the topics are unchanged.
pub(crate) fn feed(
    shelves: &mut Shelves,
    alloc: Global,
    records: Vec<SourceRecord>,
) -> Result<u64, AllocError>
    requires shelves { AreShelves shelves.old }
    requires room { shelves.old.fed + 1 < 2 ^ 64 }
    requires rises_apart { RiseApart records.items }
    requires next_feed { All (λ r. r.stamp.feed ≡ shelves.old.fed + 1) records.items }
    requires sources { All (λ r. IsSourcePart shelves.old r.stamp.topic r.stamp.part) records.items }
    ensures shelves { AreShelves shelves.new }
    ensures topics { topics_of shelves.new ≡ topics_of shelves.old }
    ensures feeds { OnOk result (ShelfFeeds (routes_in shelves.old) (ascending record_cmp records.items) (shelf_of shelves.old) (shelf_of shelves.new)) }
    ensures number { IfOk result (λ feed. feed ≡ shelves.new.fed) }
    ensures kept { OnErr result (ShelfStays (routes_in shelves.old) (shelf_of shelves.old) (shelf_of shelves.new)) }
{
    let counts = counts_of(alloc, shelves.topics.as_slice(), records.as_slice())?;
    reserve_topics(&mut shelves.topics, counts.as_slice())?;
    show_all(&mut shelves.topics, records);
    shelves.fed += 1;
    Ok(shelves.fed)
}

/// The number of records for each partition of each topic.
fn counts_of(
    alloc: Global,
    topics: &[TopicShelf],
    records: &[SourceRecord],
) -> Result<Vec<Vec<usize>>, AllocError>
    requires { All (IsThere topics.now) records.now }
    ensures len { IfOk result (λ counts. length counts.items ≡ length topics.now) }
    ensures counts { IfOk result (λ counts. EachAt (λ topic of_topic.
        IfSome (slice_get topics.now topic) (λ t. IsCounted topic records.now t of_topic.items)) counts.items) }
{
    let mut counts = no_counts(alloc, topics)?;
    for record in records {
        let part = record.stamp.part as usize;
        let of_topic = &mut counts[record.stamp.topic as usize];
        of_topic[part] += 1;
    }
    Ok(counts)
}

/// A zero for each partition of each topic.
fn no_counts(alloc: Global, topics: &[TopicShelf]) -> Result<Vec<Vec<usize>>, AllocError>
    ensures len { IfOk result (λ counts. length counts.items ≡ length topics.now) }
    ensures counts { IfOk result (λ counts. EachAt (λ topic of_topic.
        IfSome (slice_get topics.now topic) (λ t. IsCounted topic [] t of_topic.items)) counts.items) }
{
    let mut counts = Vec::new(alloc);
    for topic in topics {
        counts.push(vec![in alloc; 0usize; topic.parts.len()]?)?;
    }
    Ok(counts)
}

/// Reserves room in each partition of each topic to show `counts` more records.
fn reserve_topics(topics: &mut Vec<TopicShelf>, counts: &[Vec<usize>]) -> Result<(), AllocError>
    requires len { length topics.old.items ≡ length counts.now }
    requires parts { EachAt (λ topic of_topic.
        IfSome (slice_get topics.old.items topic) (λ t. length of_topic.items ≡ length t.parts.items)) counts.now }
    ensures views { map topic_view topics.new.items ≡ map topic_view topics.old.items }
    ensures rooms { OnOk result (EachAt (λ topic t. IfSome (slice_get counts.now topic) (λ of_topic.
        EachAt (λ q part. HasShownRoom (slice_index of_topic.items q) part) t.parts.items)) topics.new.items) }
{
    for index in 0..counts.len() {
        let topic = &mut topics[index];
        reserve_parts(&mut topic.parts, counts[index].as_slice())?;
    }
    Ok(())
}

/// Reserves room in each partition to show `counts` more records.
fn reserve_parts(parts: &mut Vec<PartShelf>, counts: &[usize]) -> Result<(), AllocError>
    requires { length parts.old.items ≡ length counts.now }
    ensures views { map part_view parts.new.items ≡ map part_view parts.old.items }
    ensures rooms { OnOk result (EachAt (λ q part. HasShownRoom (slice_index counts.now q) part) parts.new.items) }
{
    for index in 0..counts.len() {
        let part = &mut parts[index];
        part.fed.reserve(counts[index])?;
    }
    Ok(())
}

/// Appends each record to its partition. Takes no memory.
fn show_all(topics: &mut Vec<TopicShelf>, records: Vec<SourceRecord>)
    requires there { All (IsThere topics.old.items) records.items }
    requires rooms { EachAt (λ topic t. EachAt (λ q part.
        HasShownRoom (count_in topic q records.items) part) t.parts.items) topics.old.items }
    ensures { WillShowAll records.items [] topics.old.items topics.new.items }
{
    for record in records {
        let number = record.stamp.part as usize;
        let topic = &mut topics[record.stamp.topic as usize];
        let part = &mut topic.parts[number];
        part.fed.push_reserved(record);
    }
}
