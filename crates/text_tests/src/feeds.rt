ghost use Rattle.std.specs.Prelude.{◌≤◌, IfOk, length};

use crate::streams::{chars, stream};
use ksql_place::{Decoded, Stamp};
use ksql_types::{Items, Key, Value};
use std::alloc::{AllocError, Global};
use topic_feeds::Reached;
use topic_files::{Fed, Feds};

/// The record of a text `KEY:TIME`; the empty text stands for no key.
fn fed(alloc: Global, text: &str) -> Result<Fed, AllocError> {
    let (key, time) = text.split_once(':').unwrap_or(("", text));
    let key = if key.is_empty() {
        Key::of(Vec::new(alloc))
    } else {
        Key::of(vec![in alloc; Value::Txt(chars(alloc, key)?)]?)
    };
    Ok(Fed {
        time: time.parse::<u64>().unwrap_or(0),
        key,
        value: Decoded::Skipped,
    })
}

/// The records of a text, with a blank between each two.
fn feds(alloc: Global, text: &str) -> Result<Feds, AllocError>
    ensures { IfOk result (λ feds. length feds ≤ 9) }
{
    let mut feds = Vec::new(alloc);
    for piece in text.split(' ') {
        feds.push(fed(alloc, piece)?)?;
    }
    if feds.len() > 9 {
        return Err(AllocError);
    }
    Ok(Items::of(feds))
}

/// The stamps of two feeds of a stream with this many partitions.
fn stamps(
    alloc: Global,
    partitions: u32,
    first: &str,
    second: &str,
) -> Result<Vec<Stamp>, AllocError> {
    let mut stream = stream(alloc, 3, "s")?;
    stream.partitions = partitions.max(1).min(64);
    let mut reached = Reached::new(alloc, &stream)?;
    let mut records = Vec::new(alloc);
    reached.feed(alloc, &mut records, 1, &stream, feds(alloc, first)?)?;
    reached.feed(alloc, &mut records, 2, &stream, feds(alloc, second)?)?;
    let mut stamps = Vec::new(alloc);
    for record in records.as_slice() {
        stamps.push(record.stamp)?;
    }
    Ok(stamps)
}

/// The stamps of two feeds as `feed.high.topic.part.offset`, from a text `PARTITIONS | FEED | FEED`.
pub fn stamped(alloc: Global, text: &str) -> Result<String, AllocError> {
    let (partitions, feeds) = text.split_once(" | ").unwrap_or(("", text));
    let (first, second) = feeds.split_once(" | ").unwrap_or((feeds, ""));
    let partitions = partitions.parse::<u32>().unwrap_or(1);
    let mut stamped = String::from_str(alloc, "stamps")?;
    for stamp in stamps(alloc, partitions, first, second)?.as_slice() {
        let Stamp {
            feed,
            high,
            topic,
            part,
            offset,
        } = *stamp;
        write!(stamped, " {feed}.{high}.{topic}.{part}.{offset}")?;
    }
    Ok(stamped)
}
