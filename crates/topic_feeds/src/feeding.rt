ghost use Rattle.std.specs.Prelude.{◌≡◌, ◌≢◌, ◌+◌, ◌<◌, ◌≤◌, ◌^◌, ◌++◌, All, List, [], IfOk, OnOk, length};
ghost use Rattle.ksql_types.specs.Lane.{lane};
ghost use Rattle.ksql_place.specs.declared.change.SourceRecord.{SourceRecord as OneRecord};
ghost use Rattle.topic_feeds.specs.Feeding.{fed_from};
ghost use Rattle.topic_feeds.specs.Reaching.{Reaches};

use ksql_place::{SourceRecord, Stamp};
use ksql_types::{Key, Relation, lane};
use std::alloc::{AllocError, Global};
use topic_files::Feds;

/// How far a topic has been fed: the number of its records, in all and in each partition.
#[derive(Drop)]
pub struct Reached {
    count: u64,
    parts: Vec<u64>,
}

impl Reached {
    /// A relation's topic before its first feed.
    pub fn new(alloc: Global, relation: &Relation) -> Result<Reached, AllocError>
        ensures { IfOk result (λ reached. Reaches relation.now [] reached) }
    {
        let parts = vec![in alloc; 0; relation.partitions as usize]?;
        Ok(Reached { count: 0, parts })
    }

    /// Appends the records that feed `feed` brings: each with its partition, its offset, which continues from the
    /// earlier feeds, and the greatest time in its partition in this feed up to it. The relation has 1 to 64
    /// partitions, and no earlier record is of this feed. Takes time linear in the records.
    pub fn feed(
        &mut self,
        alloc: Global,
        records: &mut Vec<SourceRecord>,
        feed: u64,
        relation: &Relation,
        feds: Feds,
    ) -> Result<(), AllocError>
        requires some { 1 ≤ relation.now.partitions }
        requires few { relation.now.partitions ≤ 64 }
        requires reached { (before : List OneRecord) × Reaches relation.now before self.old
            × All (λ r. r.stamp.feed ≢ feed) before × (length before + length feds ≤ 2 ^ 63) }
        ensures records { OnOk result ((before : List OneRecord) → Reaches relation.now before self.old →
            All (λ r. r.stamp.feed ≢ feed) before →
            records.new.items ≡ records.old.items ++ fed_from feed relation.now before feds) }
        ensures reached { OnOk result ((before : List OneRecord) → Reaches relation.now before self.old →
            All (λ r. r.stamp.feed ≢ feed) before →
            Reaches relation.now (before ++ fed_from feed relation.now before feds) self.new) }
    {
        let mut highs = vec![in alloc; 0u64; relation.partitions as usize]?;
        records.reserve(feds.items().len())?;
        for fed in feds.into_items() {
            let part = part_of(relation, &fed.key, self.count);
            let offset = self.parts[part as usize];
            let high = highs[part as usize].max(fed.time);
            let stamp = Stamp {
                feed,
                high,
                topic: relation.number,
                part,
                offset,
            };
            records.push(SourceRecord {
                stamp,
                time: fed.time,
                key: fed.key,
                value: fed.value,
            })?;
            self.count += 1;
            self.parts[part as usize] = offset + 1;
            highs[part as usize] = high;
        }
        Ok(())
    }
}

/// The partition of a record with this key and this number in its file.
fn part_of(relation: &Relation, key: &Key, number: u64) -> u32
    requires some { 1 ≤ relation.now.partitions }
    requires few { relation.now.partitions ≤ 64 }
    ensures value { result ≡ lane key.now relation.now.partitions number }
    ensures within { result < relation.now.partitions }
{
    let home = number % relation.partitions as u64;
    lane(key, relation.partitions, home as u32)
}
