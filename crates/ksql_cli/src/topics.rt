//! Reading the topic files one by one.

ghost use Rattle.std.specs.Prelude.{◌≡◌, ◌⊎◌, ◌≤◌, ◌-◌, ◌++◌, ◌∷◌, [], All, List, ℕ, Some, length, IfOk, IfErr, IfSome};
ghost use Rattle.ksql_types.specs.Text.{longest_text};
ghost use Rattle.ksql_outside.specs.Outside.{MayJoin, read_bytes};
ghost use Rattle.topic_files.specs.declared.topic.TopicLines.{TopicLines as OneFile};
ghost use Rattle.topic_files.specs.File.{topic_lines};
ghost use Rattle.feed_laws.specs.Fitting.{AreFilesOf, IsFedOf};
ghost use Rattle.ksql_cli.specs.Command.{AreFed, room_after, IsGood, topic_file};
ghost use Rattle.ksql_cli.specs.Run.{declared_of};
ghost use Rattle.ksql_cli.specs.Command as spec;
ghost use Rattle.command_line.specs.Words.{longest_word};
ghost use Rattle.ksql_cli.specs.Steps.{AreTopicsDue, HasGrown, IsFeedable, IsFileFailure, IsJoined, IsReadFailure, IsTopicFailure, IsTopicRefusal};

use crate::status::Status;
use crate::texts::copied_name;
use ksql_outside::{Folder, ReadFail};
use ksql_program::Item;
use ksql_types::{Chars, CopyOf, Relation};
use std::alloc::Global;
use topic_files::{FileFault, LineWhy, Room, TopicLines, read_topic};

/// The most records and bytes that all topic files can have together.
#[tactic(auto, unfolding(crate::specs::Command::whole_room))]
pub(crate) fn whole_room() -> Room
    ensures { result ≡ spec.whole_room }
{
    Room {
        records: 200_000,
        bytes: 67_108_864,
    }
}

/// Reads the topic file of each declared relation among the items from a folder, after the files already read. All
/// files share one room.
pub(crate) fn read_topics<F: Folder>(
    alloc: Global,
    folder: &mut F,
    dir: &str,
    items: &[Item],
    reading: Reading,
) -> Result<Vec<TopicLines>, Status>
    requires feedable { All IsFeedable (declared_of items.now) }
    requires short_dir { length dir.now ≤ longest_word }
    requires few { reading.room.records ≤ 200000 }
    requires short { reading.room.bytes ≤ 67108864 }
    ensures found { IfOk result (λ read. IfSome (F.files folder.old) (λ all. (files : List OneFile)
        × AreFed dir.now all reading.room (declared_of items.now) files × (read.items ≡ reading.files.items ++ files))) }
    ensures fit { IfOk result (λ read. (files : List OneFile) × AreFilesOf items.now files × (read.items ≡ reading.files.items ++ files)) }
    ensures cause { IfErr result (λ status. IfSome (F.files folder.old)
        (λ all. IsTopicFailure dir.now all reading.room (declared_of items.now) (F.failed folder.old) (F.failed folder.new) status)) }
    ensures refusal { IfErr result IsTopicRefusal }
    ensures joined { IfErr result (IsJoined (F.failed folder.old) (F.failed folder.new)) }
    ensures grows { HasGrown (F.failed folder.old) (F.failed folder.new) }
    ensures reads { IfSome (F.files folder.old)
        (λ all. AreTopicsDue dir.now all reading.room (declared_of items.now) (F.failed folder.old) (F.failed folder.new)) }
    ensures same_files { F.files folder.new ≡ F.files folder.old }
{
    let [first, rest @ ..] = items else {
        return Ok(reading.files);
    };
    let Item::Declared(relation) = first else {
        return read_topics(alloc, folder, dir, rest, reading);
    };
    let reading = with_topic(alloc, folder, dir, relation, reading)?;
    read_topics(alloc, folder, dir, rest, reading)
}

/// The files read so far, and the room left.
#[derive(Drop)]
pub(crate) struct Reading {
    pub files: Vec<TopicLines>,
    pub room: Room,
}

/// Reads a relation's topic file, and takes its records and bytes from the room.
#[tactic(auto, unfolding(ksql_types::specs::Text::longest_text))]
fn with_topic<F: Folder>(
    alloc: Global,
    folder: &mut F,
    dir: &str,
    relation: &Relation,
    reading: Reading,
) -> Result<Reading, Status>
    requires feedable { IsFeedable relation.now }
    requires short_dir { length dir.now ≤ longest_word }
    requires few { reading.room.records ≤ 200000 }
    requires short { reading.room.bytes ≤ 67108864 }
    ensures found { IfOk result (λ read. IfSome (F.files folder.old) (λ all. (file : List ℕ) × IsGood dir.now all reading.room relation.now file
        × (read.room ≡ room_after reading.room relation.now file)
        × (read.files.items ≡ reading.files.items ++ topic_lines relation.now file ∷ []))) }
    ensures fits { IfOk result (λ read. (file : OneFile) × All (IsFedOf relation.now) file.feds × (read.files.items ≡ reading.files.items ++ file ∷ [])) }
    ensures few { IfOk result (λ read. read.room.records ≤ 200000) }
    ensures short { IfOk result (λ read. read.room.bytes ≤ 67108864) }
    ensures cause { IfErr result (λ status. IfSome (F.files folder.old)
        (λ all. IsFileFailure dir.now all reading.room relation.now (F.failed folder.old) (F.failed folder.new) status)) }
    ensures refusal { IfErr result IsTopicRefusal }
    ensures joined { IfErr result (IsJoined (F.failed folder.old) (F.failed folder.new)) }
    ensures grows { MayJoin (F.failed folder.old) (F.failed folder.new) (topic_file dir.now relation.now) }
    ensures same_files { F.files folder.new ≡ F.files folder.old }
{
    let topic = relation.topic.items();
    let name = format!(in alloc; "{dir}/{topic}.jsonl")?;
    let file = due_file(alloc, folder, name.as_str())?;
    match read_topic(alloc, relation, file.as_slice(), reading.room) {
        Ok(lines) => with_lines(reading, lines, file.len()),
        Err(FileFault::Refused { line, why }) => Err(bad_file(alloc, &relation.topic, line, why)),
        Err(FileFault::OutOfMemory) => Err(Status::OutOfMemory),
    }
}

/// Appends a file of `bytes` bytes, and takes its records and bytes from the room.
fn with_lines(reading: Reading, lines: TopicLines, bytes: usize) -> Result<Reading, Status>
    ensures files { IfOk result (λ read. read.files.items ≡ reading.files.items ++ lines ∷ []) }
    ensures record_room { IfOk result (λ read. read.room.records ≡ reading.room.records - length lines.feds) }
    ensures byte_room { IfOk result (λ read. read.room.bytes ≡ reading.room.bytes - bytes) }
    ensures memory { IfErr result (λ status. status ≡ Status.OutOfMemory) }
{
    let records = lines.feds.items().len() as u64;
    let room = Room {
        records: reading.room.records.saturating_sub(records),
        bytes: reading.room.bytes.saturating_sub(bytes as u64),
    };
    let mut files = reading.files;
    files.push(lines)?;
    Ok(Reading { files, room })
}

/// The status for a topic file that is refused at `line`.
fn bad_file(alloc: Global, topic: &Chars, line: u32, why: LineWhy) -> Status
    ensures { (result ≡ Status.TopicFile topic.now line why) ⊎ (result ≡ Status.OutOfMemory) }
{
    match topic.copy(alloc) {
        Ok(topic) => Status::TopicFile { topic, line, why },
        Err(_) => Status::OutOfMemory,
    }
}

/// The bytes of a file.
pub(crate) fn due_file<F: Folder>(
    alloc: Global,
    folder: &mut F,
    name: &str,
) -> Result<Vec<u8>, Status>
    requires { length name.now ≤ longest_text }
    ensures told { IfOk result (λ bytes. IfSome (F.files folder.old) (λ all. read_bytes name.now all ≡ Some bytes.items)) }
    ensures cause { IfErr result (IsReadFailure (F.failed folder.old) (F.failed folder.new) name.now) }
    ensures same_files { F.files folder.new ≡ F.files folder.old }
    ensures grows { MayJoin (F.failed folder.old) (F.failed folder.new) name.now }
{
    let kept = copied_name(alloc, name)?;
    match folder.read(alloc, name) {
        Ok(bytes) => Ok(bytes),
        Err(ReadFail::Failed) => Err(Status::ReadFault { name: kept }),
        Err(ReadFail::OutOfMemory) => Err(Status::OutOfMemory),
    }
}
