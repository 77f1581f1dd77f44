use crate::texts::{halves, number};
use ksql_place::{
    Decoded, PartTimes, Path, Place, SourceRecord, Stamp, cmp_between, cmp_place, order_of,
    stamps_of,
};
use ksql_types::{Items, Key};
use std::alloc::{AllocError, Global};

/// A stamp of the first feed and the topic 0.
fn stamp(high: u64, part: u32, offset: u64) -> Stamp {
    Stamp {
        feed: 1,
        high,
        topic: 0,
        part,
        offset,
    }
}

/// The numbers of a text with blanks between them.
fn numbers(alloc: Global, text: &str) -> Result<Vec<u32>, AllocError> {
    let mut numbers = Vec::new(alloc);
    for word in text.split_whitespace() {
        numbers.push(number(word))?;
    }
    Ok(numbers)
}

/// The place of a text `OFFSET PATH`.
fn place(alloc: Global, text: &str) -> Result<Place, AllocError> {
    let (offset, path) = text.split_once(' ').unwrap_or((text, ""));
    let path = numbers(alloc, path)?;
    Ok(Place {
        stamp: stamp(9, 1, u64::from(number(offset))),
        path: Path::of(alloc, &path)?,
    })
}

/// How two places compare.
pub fn compared(alloc: Global, text: &str) -> Result<String, AllocError> {
    let (first, second) = halves(text);
    let order = cmp_place(&place(alloc, first)?, &place(alloc, second)?);
    format!(in alloc; "{order:?}")
}

/// How two places in changes of relations compare, from a text `NUMBER:PLACE | NUMBER:PLACE`.
pub fn compared_between(alloc: Global, text: &str) -> Result<String, AllocError> {
    let (first, second) = halves(text);
    let (a, first) = first.split_once(':').unwrap_or(("", first));
    let (b, second) = second.split_once(':').unwrap_or(("", second));
    let (first, second) = (place(alloc, first)?, place(alloc, second)?);
    let order = cmp_between(&first, number(a), &second, number(b));
    format!(in alloc; "{order:?}")
}

pub fn record(alloc: Global, stamp: Stamp) -> SourceRecord {
    SourceRecord {
        stamp,
        time: stamp.high,
        key: Key::of(Vec::new(alloc)),
        value: Decoded::Tombstone,
    }
}

/// The record of a text `HIGH.PART.OFFSET`.
fn record_of(alloc: Global, text: &str) -> SourceRecord {
    let (high, rest) = text.split_once('.').unwrap_or((text, ""));
    let (part, offset) = rest.split_once('.').unwrap_or((rest, ""));
    let (high, offset) = (u64::from(number(high)), u64::from(number(offset)));
    record(alloc, stamp(high, number(part), offset))
}

/// Records in their order.
fn in_order(alloc: Global, text: &str) -> Result<Vec<Stamp>, AllocError> {
    let mut records = Vec::new(alloc);
    for word in text.split(' ') {
        records.push(record_of(alloc, word))?;
    }
    let mut stamps = Vec::new(alloc);
    for record in order_of(records)?.as_slice() {
        stamps.push(record.stamp)?;
    }
    Ok(stamps)
}

/// The stamps of two records of partition 1, at the times 9 and 1, and of one of partition 0, at the time 5.
fn late(alloc: Global) -> Result<Vec<Stamp>, AllocError> {
    let a = PartTimes {
        topic: 0,
        part: 1,
        first: 0,
        times: Items::of(vec![in alloc; 9, 1]?),
    };
    let b = PartTimes {
        topic: 0,
        part: 0,
        first: 0,
        times: Items::of(vec![in alloc; 5]?),
    };
    stamps_of(alloc, 1, &[a, b])
}

/// The order of some records, or of those of two partitions, as `high.part.offset`.
pub fn ordered(alloc: Global, text: &str) -> Result<String, AllocError> {
    let stamps = match text {
        "late" => late(alloc)?,
        _ => in_order(alloc, text)?,
    };
    let mut ordered = String::from_str(alloc, "order")?;
    for stamp in stamps.as_slice() {
        write!(ordered, " {}.{}.{}", stamp.high, stamp.part, stamp.offset)?;
    }
    Ok(ordered)
}
