use crate::texts::chars;
use ksql_expr::{AggFun, Exprs, Typed, TypedNode};
use ksql_program::{Agg, From, Item, JoinKind, Program, Query, Shape};
use ksql_types::{Column, CopyOf, Format, Items, Kind, Relation, Schema, SqlType};
use logical_plan::{Plan, plan};
use std::alloc::{AllocError, Global};

fn columns(alloc: Global, name: &str) -> Result<Items<Column>, AllocError> {
    let column = Column {
        name: chars(alloc, name)?,
        ty: SqlType::Text,
    };
    Ok(Items::of(vec![in alloc; column]?))
}

/// A relation over two partitions with the key column ID and the value column V.
fn relation(alloc: Global, number: u32, kind: Kind) -> Result<Relation, AllocError> {
    Ok(Relation {
        number,
        name: chars(alloc, "R")?,
        kind,
        schema: Schema {
            keys: columns(alloc, "ID")?,
            values: columns(alloc, "V")?,
        },
        topic: chars(alloc, "r")?,
        partitions: 2,
        format: Format::Json,
        declared: true,
    })
}

/// The stream 0 and the table 1.
fn program(alloc: Global) -> Result<Program, AllocError> {
    let mut items = Vec::new(alloc);
    items.push(Item::Declared(relation(alloc, 0, Kind::Stream)?))?;
    items.push(Item::Declared(relation(alloc, 1, Kind::Table)?))?;
    Ok(Program {
        items: Items::of(items),
    })
}

fn column(index: u32) -> Typed {
    Typed {
        ty: Some(SqlType::Text),
        node: TypedNode::Column(index),
    }
}

fn exprs(alloc: Global, index: u32) -> Result<Exprs, AllocError> {
    Ok(Items::of(vec![in alloc; column(index)]?))
}

/// `SELECT V, COUNT(*) FROM R WHERE .. GROUP BY V HAVING ..`.
fn grouped(alloc: Global, number: u32) -> Result<Query, AllocError> {
    let out = relation(alloc, 2, Kind::Table)?;
    let keys = exprs(alloc, 1)?;
    let values = exprs(alloc, 1)?;
    let mut aggs = Vec::new(alloc);
    aggs.push(Agg {
        fun: AggFun::CountAll,
        arg: None,
    })?;
    Ok(Query {
        from: From::One { relation: number },
        filter: Some(column(0)),
        shape: Shape::Group {
            keys,
            window: None,
            aggs: Items::of(aggs),
            having: Some(column(1)),
            values,
        },
        out,
    })
}

/// A relation and the table, joined by a column of the relation.
fn joined(alloc: Global, left: u32, on: u32) -> Result<Query, AllocError> {
    let out = relation(alloc, 2, Kind::Stream)?;
    let keys = exprs(alloc, on)?;
    let values = exprs(alloc, 3)?;
    Ok(Query {
        from: From::Join {
            kind: JoinKind::Inner,
            left,
            right: 1,
            on: column(on),
        },
        filter: None,
        shape: Shape::Plain { keys, values },
        out,
    })
}

/// The query of a text: a grouping, or a join of the stream by another key or by its own, or of the table.
fn query(alloc: Global, text: &str) -> Result<Query, AllocError> {
    match text {
        "a grouping of the stream" => grouped(alloc, 0),
        "a grouping of the table" => grouped(alloc, 1),
        "a join of the stream by another key" => joined(alloc, 0, 1),
        "a join of the stream by its key" => joined(alloc, 0, 0),
        _ => joined(alloc, 1, 0),
    }
}

fn shown(alloc: Global, plan: &Plan) -> Result<String, AllocError> {
    match plan {
        Plan::Source { relation } => format!(in alloc; "{relation}"),
        Plan::Filter { arg, .. } => around(alloc, "filter", shown(alloc, arg.get())),
        Plan::Rekey { arg, .. } => around(alloc, "rekey", shown(alloc, arg.get())),
        Plan::JoinStreamTable { left, right, .. } => {
            let left = shown(alloc, left.get())?;
            around_two(alloc, "join stream", left, shown(alloc, right.get()))
        }
        Plan::JoinTables { left, right, .. } => {
            let left = shown(alloc, left.get())?;
            around_two(alloc, "join tables", left, shown(alloc, right.get()))
        }
        Plan::Group { arg, .. } => around(alloc, "group", shown(alloc, arg.get())),
        Plan::Aggregate {
            over,
            window,
            arg,
            ..
        } => {
            let arg = shown(alloc, arg.get())?;
            format!(in alloc; "aggregate {over:?} {window:?} ({arg})")
        }
        Plan::Having { arg, .. } => around(alloc, "having", shown(alloc, arg.get())),
        Plan::Select { keys, out, arg, .. } => {
            let arg = shown(alloc, arg.get())?;
            format!(in alloc; "select {} for {out} ({arg})", keys.items().len())
        }
    }
}

/// A word before what stands in it.
fn around(
    alloc: Global,
    word: &str,
    arg: Result<String, AllocError>,
) -> Result<String, AllocError> {
    let arg = arg?;
    format!(in alloc; "{word} ({arg})")
}

/// A word before the two that stand in it.
fn around_two(
    alloc: Global,
    word: &str,
    left: String,
    right: Result<String, AllocError>,
) -> Result<String, AllocError> {
    let right = right?;
    format!(in alloc; "{word} ({left}) ({right})")
}

/// The plan of a query, as its copy shows it.
pub fn planned(alloc: Global, text: &str) -> Result<String, AllocError> {
    let plan = plan(alloc, &query(alloc, text)?, &program(alloc)?)?;
    shown(alloc, &plan.copy(alloc)?)
}
