ghost use Rattle.std.specs.Prelude.{◌≡◌, ◌<◌, ◌≤◌, not, map, IfOk, IsTrue};
ghost use Rattle.query_meaning.specs.Meaning.{declared_changes, item_changes, meaning, partition_of};
ghost use Rattle.reference.specs.Plain.{changes_of};
ghost use Rattle.reference.specs.Windowless.{HaveNoWindow, is_windowed, is_windowless};

use crate::queries::query_changes;
use crate::steps::table_changes;
use ksql_place::{Change, Changes, SourceRecord};
use ksql_program::{Item, Program};
use ksql_types::{Items, Kind, Relation, lane};
use std::alloc::{AllocError, Global};

/// The changes of a relation: borrowed from the records of a declared stream's topic, or a list of its own.
#[derive(Drop)]
pub enum Listed<'a> {
    Lent {
        number: u32,
        order: &'a [SourceRecord],
    },
    Made(Changes),
}

/// A list of changes for each relation of a program, in the order of its items.
pub type Lists<'a> = Vec<Listed<'a>>;

/// The meaning of a program on the records that were fed, query by query. A declared stream's changes are borrowed from
/// the records. Takes O(n²) steps for n changes of a table, a join or a group.
pub fn slow_meaning<'a>(
    alloc: Global,
    program: &Program,
    order: &'a [SourceRecord],
) -> Result<Lists<'a>, AllocError>
    requires windowless { HaveNoWindow program.now.items }
    ensures { IfOk result (λ lists. map changes_of lists.items ≡ meaning program.now.items order.now) }
{
    let mut lists = Vec::new(alloc);
    for item in program.items.items() {
        let listed = item_changes(alloc, program, order, lists.as_slice(), item)?;
        lists.push(listed)?;
    }
    Ok(lists)
}

/// The partition of a change in a relation's topic: the lane of its key among the relation's 1 to 64 partitions, or the
/// partition of its record if it has no key. Takes no memory.
pub fn partition_of(relation: &Relation, change: &Change) -> u32
    requires some { 1 ≤ relation.now.partitions }
    requires few { relation.now.partitions ≤ 64 }
    ensures value { result ≡ partition_of relation.now change.now }
    ensures within { result < relation.now.partitions }
{
    lane(&change.key, relation.partitions, change.place.stamp.part)
}

/// The changes of an item, given those of the items before it.
fn item_changes<'a>(
    alloc: Global,
    program: &Program,
    order: &'a [SourceRecord],
    lists: &[Listed<'a>],
    item: &Item,
) -> Result<Listed<'a>, AllocError>
    requires { IsTrue (is_windowless item.now) }
    ensures { IfOk result (λ listed. changes_of listed ≡ item_changes program.now.items order.now (map changes_of lists.now) item.now) }
{
    match item {
        Item::Declared(relation) => declared_changes(alloc, relation, order),
        Item::Started(query) => {
            let changes = query_changes(alloc, program, lists, query)?;
            Ok(Listed::Made(Items::of(changes)))
        }
    }
}

/// The changes of a declared stream or table.
fn declared_changes<'a>(
    alloc: Global,
    relation: &Relation,
    order: &'a [SourceRecord],
) -> Result<Listed<'a>, AllocError>
    requires { IsTrue (not (is_windowed relation.now.kind)) }
    ensures { IfOk result (λ listed. changes_of listed ≡ declared_changes relation.now order.now) }
{
    let number = relation.number;
    match relation.kind {
        Kind::Stream => Ok(Listed::Lent { number, order }),
        Kind::Table => {
            let changes = table_changes(alloc, number, order)?;
            Ok(Listed::Made(Items::of(changes)))
        }
        Kind::Windowed => unreachable!(),
    }
}
