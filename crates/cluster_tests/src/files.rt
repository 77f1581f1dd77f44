//! The records of topic files.
ghost use Rattle.std.specs.Prelude.{◌++◌, ◌∷◌, [], All, IfOk, List, OnOk};
ghost use Rattle.ksql_program.specs.declared.program.Item.{Item as OneItem};
ghost use Rattle.feed_laws.specs.Fitting.{AreFilesOf, IsFedOf};

use crate::fault::Fault;
use ksql_program::Item;
use ksql_types::Relation;
use std::alloc::Global;
use topic_files::{Room, TopicLines, read_topic};

/// The records of the declared relations among these items, from the texts of their topic files in the same order.
/// Missing texts count as empty files.
pub(crate) fn files_of(
    alloc: Global,
    items: &[Item],
    texts: &[&str],
) -> Result<Vec<TopicLines>, Fault>
    ensures { IfOk result (λ files. AreFilesOf items.now files.items) }
{
    let mut files = Vec::new(alloc);
    for item in items {
        push_file(alloc, &mut files, item, texts)?;
    }
    Ok(files)
}

/// Appends the records of an item, if it is declared, from the next text.
fn push_file(
    alloc: Global,
    files: &mut Vec<TopicLines>,
    item: &Item,
    texts: &[&str],
) -> Result<(), Fault>
    ensures { OnOk result ((before : List OneItem) → AreFilesOf before files.old.items → AreFilesOf (before ++ item.now ∷ []) files.new.items) }
{
    match item {
        Item::Declared(relation) => {
            let text = texts.get(files.len()).copied().unwrap_or("");
            let file = file_of(alloc, relation, text)?;
            files.push(file)?;
            Ok(())
        }
        Item::Started(_) => Ok(()),
    }
}

/// The records of a relation's topic file.
fn file_of(alloc: Global, relation: &Relation, text: &str) -> Result<TopicLines, Fault>
    ensures { IfOk result (λ file. All (IsFedOf relation.now) file.feds) }
{
    let room = Room {
        records: 200_000,
        bytes: 67_108_864,
    };
    Ok(read_topic(alloc, relation, text.as_bytes(), room)?)
}
