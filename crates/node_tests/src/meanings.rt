use crate::changes::{column, int_column};
use ksql_expr::{Exprs, Typed, TypedNode};
use ksql_place::{Body, Change, Decoded, SourceRecord, Stamp};
use ksql_program::{From, Item, Program, ProgramItems, Query, Shape, relation_of};
use ksql_types::{
    BinaryOp, Boxed, Chars, Column, Format, Items, Key, Kind, Relation, Schema, SqlType, Value,
};
use reference::{Listed, have_no_window, partition_of, slow_meaning};
use std::alloc::{AllocError, Global};

#[tactic(auto, unfolding(ksql_types::specs::Text::longest_text))]
fn chars(alloc: Global, text: &str) -> Result<Chars, AllocError> {
    if text.len() > 100 {
        return Err(AllocError);
    }
    Ok(Chars::of(String::from_str(alloc, text)?)?)
}

/// A relation over two partitions with one key column.
fn relation(alloc: Global, number: u32, kind: Kind) -> Result<Relation, AllocError> {
    let key = Column {
        name: chars(alloc, "ID")?,
        ty: SqlType::Text,
    };
    Ok(Relation {
        number,
        name: chars(alloc, "R")?,
        kind,
        schema: Schema {
            keys: Items::of(vec![in alloc; key]?),
            values: Items::of(Vec::new(alloc)),
        },
        topic: chars(alloc, "r")?,
        partitions: 2,
        format: Format::Json,
        declared: number == 0,
    })
}

/// An operator between the column N and 1.
fn with_one(alloc: Global, op: BinaryOp, ty: SqlType) -> Result<Typed, AllocError> {
    let one = Typed {
        ty: Some(SqlType::Int),
        node: TypedNode::Literal(Value::Int(1)),
    };
    let left = Boxed::of(alloc, int_column(1))?;
    let right = Boxed::of(alloc, one)?;
    Ok(Typed {
        ty: Some(ty),
        node: TypedNode::Binary { op, left, right },
    })
}

fn exprs(alloc: Global, one: Typed) -> Result<Exprs, AllocError> {
    Ok(Items::of(vec![in alloc; one]?))
}

fn shape(alloc: Global) -> Result<Shape, AllocError> {
    let values = exprs(alloc, with_one(alloc, BinaryOp::Add, SqlType::Int)?)?;
    let keys = exprs(alloc, column(2, SqlType::Text))?;
    Ok(Shape::Plain { keys, values })
}

/// The stream R, and a query over it.
fn items(alloc: Global, query: Query) -> Result<ProgramItems, AllocError> {
    let declared = Item::Declared(relation(alloc, 0, Kind::Stream)?);
    Ok(Items::of(vec![in alloc; declared, Item::Started(query)]?))
}

/// R with the columns ID, N and G, and `SELECT G, N + 1 FROM R WHERE N > 1 PARTITION BY G`.
fn program(alloc: Global) -> Result<Program, AllocError> {
    let shape = shape(alloc)?;
    let filter = with_one(alloc, BinaryOp::Gt, SqlType::Bool)?;
    let query = Query {
        from: From::One { relation: 0 },
        filter: Some(filter),
        shape,
        out: relation(alloc, 1, Kind::Stream)?,
    };
    let items = items(alloc, query)?;
    Ok(Program { items })
}

fn text(alloc: Global, text: &str) -> Result<Value, AllocError> {
    if text.is_empty() {
        return Ok(Value::Null);
    }
    Ok(Value::Txt(chars(alloc, text)?))
}

/// A record of the topic with this number, whose key lies in its partition: a in 1 and b in 0. Its row has a number and
/// a text, of which the empty one stands for NULL.
fn fed(
    alloc: Global,
    (topic, part, time): (u32, u32, u64),
    (number, group): (i32, &str),
) -> Result<SourceRecord, AllocError> {
    let key = chars(alloc, if part == 1 { "a" } else { "b" })?;
    let row = vec![in alloc; Value::Int(number), text(alloc, group)?]?;
    Ok(SourceRecord {
        stamp: Stamp {
            feed: 1,
            high: time,
            topic,
            part,
            offset: 0,
        },
        time,
        key: Key::of(vec![in alloc; Value::Txt(key)]?),
        value: Decoded::Good(Items::of(row)),
    })
}

fn order(alloc: Global) -> Result<Vec<SourceRecord>, AllocError> {
    let mut order = Vec::new(alloc);
    for (place, row) in [
        ((0, 1, 5), (1, "p")),
        ((3, 1, 6), (9, "p")),
        ((0, 0, 7), (i32::MAX, "a")),
        ((0, 1, 9), (5, "")),
    ] {
        order.push(fed(alloc, place, row)?)?;
    }
    Ok(order)
}

fn push_cells(line: &mut String, cells: &[Value]) -> Result<(), AllocError> {
    for cell in cells {
        match cell {
            Value::Txt(text) => write!(line, " {}", text.items())?,
            Value::Int(number) => write!(line, " {number}")?,
            _ => line.push_str(" ?")?,
        }
    }
    Ok(())
}

/// Appends the partition, the time, the key and the row of a change.
fn push_line(lines: &mut String, relation: &Relation, change: &Change) -> Result<(), AllocError> {
    let Body::Said(row) = &change.body else {
        return lines.push_str("; a change of a table");
    };
    if relation.partitions != 2 {
        return Err(AllocError);
    }
    let part = partition_of(relation, change);
    write!(lines, "; {part} {}", change.time)?;
    push_cells(lines, change.key.items())?;
    lines.push_str(":")?;
    push_cells(lines, row.items())
}

/// Appends what is lent, or each change.
fn push_listed(lines: &mut String, relation: &Relation, listed: &Listed) -> Result<(), AllocError> {
    match listed {
        Listed::Lent { number, order } => {
            write!(lines, "{number} in {} records", order.len())?;
        }
        Listed::Made(changes) => {
            for change in changes.items() {
                push_line(lines, relation, change)?;
            }
        }
    }
    Ok(())
}

fn lines(alloc: Global, program: &Program, order: &[SourceRecord]) -> Result<String, AllocError> {
    if !have_no_window(program) {
        return Err(AllocError);
    }
    let lists = slow_meaning(alloc, program, order)?;
    let mut lines = String::new(alloc);
    for (item, listed) in program.items.items().iter().zip(lists.as_slice()) {
        push_listed(&mut lines, relation_of(item), listed)?;
    }
    Ok(lines)
}

/// What a query means of records of which one gets no key, one is of another topic and one is left out by the query.
pub fn meaning(alloc: Global) -> Result<String, AllocError> {
    let order = order(alloc)?;
    lines(alloc, &program(alloc)?, order.as_slice())
}

/// Whether a stream, a table and a windowed table are all without windows.
pub fn windowless(alloc: Global) -> Result<String, AllocError> {
    let mut items = Vec::new(alloc);
    for (number, kind) in [(0, Kind::Stream), (1, Kind::Table), (2, Kind::Windowed)] {
        items.push(Item::Declared(relation(alloc, number, kind)?))?;
    }
    let items = Items::of(items);
    let plain = have_no_window(&Program { items });
    format!(in alloc; "{plain}")
}
