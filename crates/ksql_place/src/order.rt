ghost use Rattle.std.specs.Prelude.{◌≡◌, ◌++◌, IfOk, OnOk};
ghost use Rattle.std.specs.List.{All};
ghost use Rattle.ksql_place.specs.Ascending.{ascending};
ghost use Rattle.ksql_place.specs.Order.{between_cmp, part_stamps, place_cmp, record_cmp, stamps_of, HasOffsets};

use crate::change::SourceRecord;
use crate::stamp::{Place, Stamp};
use ksql_types::{CopyOf, Items};
use std::alloc::{AllocError, Global};
use std::cmp::Ordering;

/// The times of the records that one feed brings to one partition of a topic, in milliseconds and in the order of their
/// offsets, starting from `first`.
#[derive(Debug, Drop)]
pub struct PartTimes {
    pub topic: u32,
    pub part: u32,
    pub first: u64,
    pub times: Items<u64>,
}

impl CopyOf for PartTimes {
    fn copy(&self, alloc: Global) -> Result<PartTimes, AllocError> {
        Ok(PartTimes {
            topic: self.topic,
            part: self.part,
            first: self.first,
            times: self.times.copy(alloc)?,
        })
    }
}

/// Compares two places of one relation: by stamp, then by path.
pub fn cmp_place(a: &Place, b: &Place) -> Ordering
    ensures { result ≡ place_cmp a.now b.now }
{
    cmp_between(a, 0, b, 0)
}

/// Compares places of the relations `ra` and `rb`: by stamp, then by relation, then by path.
pub fn cmp_between(a: &Place, ra: u32, b: &Place, rb: u32) -> Ordering
    ensures { result ≡ between_cmp a.now ra b.now rb }
{
    a.stamp
        .cmp(&b.stamp)
        .then(ra.cmp(&rb))
        .then_with(|| a.path.items().cmp(b.path.items()))
}

/// The stamps of all records that a feed brings to these partitions, in the order of consumption.
pub fn stamps_of(alloc: Global, feed: u64, parts: &[PartTimes]) -> Result<Vec<Stamp>, AllocError>
    requires { All HasOffsets parts.now }
    ensures { IfOk result (λ stamps. stamps.items ≡ stamps_of feed parts.now) }
{
    let mut stamps = Vec::new(alloc);
    for part in parts {
        push_stamps(&mut stamps, feed, part)?;
    }
    stamps.sort()?;
    Ok(stamps)
}

/// Appends the stamps of one partition's records.
fn push_stamps(stamps: &mut Vec<Stamp>, feed: u64, part: &PartTimes) -> Result<(), AllocError>
    requires { HasOffsets part.now }
    ensures { OnOk result (stamps.new.items ≡ stamps.old.items ++ part_stamps feed part.now) }
{
    let mut high: u64 = 0;
    for (index, time) in part.times.items().iter().enumerate() {
        high = high.max(*time);
        stamps.push(Stamp {
            feed,
            high,
            topic: part.topic,
            part: part.part,
            offset: part.first + index as u64,
        })?;
    }
    Ok(())
}

/// The records in the order of consumption: ascending by stamp, where records with the same stamp keep their order.
/// Takes O(n log n) steps.
pub fn order_of(mut records: Vec<SourceRecord>) -> Result<Vec<SourceRecord>, AllocError>
    ensures { IfOk result (λ order. order.items ≡ ascending record_cmp records.items) }
{
    records.sort_by_key(|record| record.stamp)?;
    Ok(records)
}
