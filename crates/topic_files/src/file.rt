ghost use Rattle.std.specs.Prelude.{◌≡◌, ◌≢◌, ◌≤◌, ◌<◌, ◌^◌, ℕ, IfOk};
ghost use Rattle.topic_files.specs.File.{first_fault, reading, topic_lines};

use crate::lines::{Lines, is_blank};
use crate::record::fed_of_line;
use crate::topic::{FileFault, LineWhy, Room, TopicLines};
use json::Scratch;
use ksql_types::{Items, Relation};
use std::alloc::Global;

/// The records of a relation's topic file, in the order of its lines, or the first line, counted from 1, that isn't a
/// topic line or exceeds the room; a line that does both is reported as too large.
pub fn read_topic(
    alloc: Global,
    relation: &Relation,
    bytes: &[u8],
    room: Room,
) -> Result<TopicLines, FileFault>
    requires few { room.records ≤ 200000 }
    requires short { room.bytes ≤ 67108864 }
    ensures good { IfOk result (λ read. first_fault room bytes.now ≡ None) }
    ensures records { IfOk result (λ read. read ≡ topic_lines relation.now bytes.now) }
    ensures refused { (line : ℕ) (why : LineWhy)
        → result ≡ Err (FileFault.Refused line why) → first_fault room bytes.now ≡ Some (line, why) }
    ensures answered { result ≢ Err FileFault.OutOfMemory → result ≡ reading relation.now room bytes.now }
{
    let mut feds = Vec::with_capacity(alloc, most_records(room, bytes.len()))?;
    let mut scratch = Scratch::new(alloc);
    let mut number: usize = 0;
    let mut records: usize = 0;
    let mut taken: usize = 0;
    for line in Lines::of(bytes) {
        let blank = is_blank(line);
        number += 1;
        records += usize::from(!blank);
        taken += line.len() + 1;
        if room.is_passed(records, taken.min(bytes.len())) {
            return Err(refused(number, LineWhy::TooLarge));
        }
        if blank {
            continue;
        }
        match fed_of_line(alloc, relation, line, &mut scratch)? {
            Some(fed) => feds.push(fed)?,
            None => return Err(refused(number, LineWhy::BadLine)),
        }
    }
    Ok(TopicLines {
        relation: relation.number,
        feds: Items::of(feds),
    })
}

/// The most records that a file of `bytes` bytes can have: `{"t":0}` and a line feed are 8 bytes.
fn most_records(room: Room, bytes: usize) -> usize {
    room.records.min(bytes as u64 / 8 + 1) as usize
}

/// The refusal of line number `line`.
fn refused(line: usize, why: LineWhy) -> FileFault
    requires { line < 2 ^ 32 }
    ensures { result ≡ FileFault.Refused line why }
{
    FileFault::Refused {
        line: line as u32,
        why,
    }
}
