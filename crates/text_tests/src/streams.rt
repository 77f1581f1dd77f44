//! What several of the tables build on: short texts, streams over their topics, and columns.

use ksql_types::{Chars, Column, Format, Items, Kind, Relation, Schema, SqlType};
use std::alloc::{AllocError, Global};

#[tactic(auto, unfolding(ksql_types::specs::Text::longest_text))]
pub fn chars(alloc: Global, text: &str) -> Result<Chars, AllocError> {
    if text.len() > 100 {
        return Err(AllocError);
    }
    Ok(Chars::of(String::from_str(alloc, text)?)?)
}

/// A declared stream with this number over a topic, with two partitions and no columns.
pub fn stream(alloc: Global, number: u32, topic: &str) -> Result<Relation, AllocError> {
    Ok(Relation {
        number,
        name: chars(alloc, "S")?,
        kind: Kind::Stream,
        schema: Schema {
            keys: Items::of(Vec::new(alloc)),
            values: Items::of(Vec::new(alloc)),
        },
        topic: chars(alloc, topic)?,
        partitions: 2,
        format: Format::Json,
        declared: true,
    })
}

/// The column of a text `NAME:TYPE`, where the type is `int`, `big`, `bool` or `text`.
fn column(alloc: Global, text: &str) -> Result<Column, AllocError> {
    let (name, ty) = text.split_once(':').unwrap_or((text, "text"));
    let ty = match ty {
        "int" => SqlType::Int,
        "big" => SqlType::Big,
        "bool" => SqlType::Bool,
        _ => SqlType::Text,
    };
    let name = chars(alloc, name)?;
    Ok(Column { name, ty })
}

/// A stream with the text key K and these columns, with a blank between each two.
pub fn stream_with(alloc: Global, columns: &str) -> Result<Relation, AllocError> {
    let mut stream = stream(alloc, 3, "r")?;
    let mut values = Vec::new(alloc);
    for text in columns.split(' ') {
        values.push(column(alloc, text)?)?;
    }
    stream.schema.keys = Items::of(vec![in alloc; column(alloc, "K:text")?]?);
    stream.schema.values = Items::of(values);
    Ok(stream)
}
