ghost use Rattle.std.specs.Prelude.{◌≡◌, IfOk};

use crate::texts::{chars, number};
use ksql_types::{
    AddRefusal, Catalog, Column, Columns, Format, Items, Kind, Relation, Schema, SqlType,
};
use std::alloc::{AllocError, Global};

fn column(alloc: Global, name: &str, ty: SqlType) -> Result<Columns, AllocError> {
    let name = chars(alloc, name)?;
    Ok(Items::of(vec![in alloc; Column { name, ty }]?))
}

fn relation(alloc: Global, number: u32, name: &str, topic: &str) -> Result<Relation, AllocError>
    ensures { IfOk result (λ made. made.number ≡ number) }
{
    Ok(Relation {
        number,
        name: chars(alloc, name)?,
        kind: Kind::Table,
        schema: Schema {
            keys: column(alloc, "K", SqlType::Int)?,
            values: column(alloc, "V", SqlType::Text)?,
        },
        topic: chars(alloc, topic)?,
        partitions: 1,
        format: Format::Delimited,
        declared: true,
    })
}

/// Whether a relation of a text `NAME/TOPIC` is added, and not refused for these.
fn added(alloc: Global, catalog: &mut Catalog, text: &str) -> Result<String, AllocError> {
    let (name, topic) = text.split_once('/').unwrap_or((text, ""));
    let number = catalog.items().len();
    if number > 9 {
        return Err(AllocError);
    }
    match catalog.add(alloc, relation(alloc, number as u32, name, topic)?) {
        Ok(()) => String::from_str(alloc, " added"),
        Err(AddRefusal::NameTaken) => String::from_str(alloc, " taken"),
        Err(AddRefusal::OutOfMemory) => Err(AllocError),
    }
}

/// The topic of what is found.
fn topic(alloc: Global, found: Option<&Relation>) -> Result<String, AllocError> {
    match found {
        Some(relation) => format!(in alloc; " {}", relation.topic.items()),
        None => String::from_str(alloc, " none"),
    }
}

/// Does what a word says, as `add:NAME/TOPIC`, `find:NAME` or `get:NUMBER`, and tells what it gives.
fn step(alloc: Global, catalog: &mut Catalog, word: &str) -> Result<String, AllocError> {
    let (command, rest) = word.split_once(':').unwrap_or((word, ""));
    match command {
        "add" => added(alloc, catalog, rest),
        "find" => topic(alloc, catalog.find(&chars(alloc, rest)?)),
        _ => topic(alloc, catalog.get(number(rest))),
    }
}

/// What a catalog tells after each word of a text, with a blank between each two.
pub fn told(alloc: Global, text: &str) -> Result<String, AllocError> {
    let mut catalog = Catalog::new(alloc);
    let mut told = String::from_str(alloc, "told")?;
    for word in text.split(' ') {
        told.push_str(step(alloc, &mut catalog, word)?.as_str())?;
    }
    Ok(told)
}
