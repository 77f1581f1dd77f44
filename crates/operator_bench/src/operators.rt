//! One operator of each kind, before any entry. Each accepts the entries of the benchmark.
ghost use Rattle.std.specs.Prelude.{◌≡◌, IfOk};
ghost use Rattle.operator_bench.specs.Plain.{count_all, TakesPlain};

use agg_ops::AggOp;
use join_ops::{StreamTableOp, TableTableOp};
use ksql_expr::{AggFun, Exprs, Typed, TypedNode};
use ksql_nodes::{Node, Side};
use ksql_program::{Agg, Aggs, JoinKind};
use ksql_types::{Items, Kind, SqlType, Value};
use operator::Operator;
use row_ops::{FilterOp, RekeyOp, SelectOp, TableOp};
use std::alloc::{AllocError, Global};

const LEFT: Side = Side {
    relation: 0,
    columns: 2,
};

const RIGHT: Side = Side {
    relation: 1,
    columns: 2,
};

pub fn select(alloc: Global) -> Result<SelectOp, AllocError>
    ensures { IfOk result (λ op. TakesPlain (⟦<SelectOp as Operator>⟧.node op)) }
{
    let keys = columns(alloc, 0)?;
    let values = columns(alloc, 1)?;
    let nodes = vec![in alloc; Node::Select { keys, values }]?;
    SelectOp::new(alloc, &nodes[0])
}

pub fn filter(alloc: Global) -> Result<FilterOp, AllocError>
    ensures { IfOk result (λ op. TakesPlain (⟦<FilterOp as Operator>⟧.node op)) }
{
    let on = Typed {
        ty: Some(SqlType::Bool),
        node: TypedNode::Literal(Value::Bool(true)),
    };
    let nodes = vec![in alloc; Node::Filter { on }]?;
    FilterOp::new(alloc, &nodes[0])
}

pub fn group(alloc: Global) -> Result<RekeyOp, AllocError>
    ensures { IfOk result (λ op. TakesPlain (⟦<RekeyOp as Operator>⟧.node op)) }
{
    let keys = columns(alloc, 0)?;
    let nodes = vec![in alloc; Node::Group { keys }]?;
    RekeyOp::new(alloc, &nodes[0])
}

pub fn table(alloc: Global) -> Result<TableOp, AllocError>
    ensures { IfOk result (λ op. TakesPlain (⟦<TableOp as Operator>⟧.node op)) }
{
    let nodes = vec![in alloc; Node::Table { relation: 0 }]?;
    TableOp::new(alloc, &nodes[0])
}

pub fn count(alloc: Global) -> Result<AggOp, AllocError>
    ensures { IfOk result (λ op. TakesPlain (⟦<AggOp as Operator>⟧.node op)) }
{
    let aggs = count_all(alloc)?;
    let node = Node::Aggregate {
        over: Kind::Stream,
        aggs,
        window: None,
    };
    let nodes = vec![in alloc; node]?;
    AggOp::new(alloc, &nodes[0])
}

pub fn table_count(alloc: Global) -> Result<AggOp, AllocError>
    ensures { IfOk result (λ op. TakesPlain (⟦<AggOp as Operator>⟧.node op)) }
{
    let aggs = count_all(alloc)?;
    let node = Node::Aggregate {
        over: Kind::Table,
        aggs,
        window: None,
    };
    let nodes = vec![in alloc; node]?;
    AggOp::new(alloc, &nodes[0])
}

pub fn stream_table(alloc: Global) -> Result<StreamTableOp, AllocError>
    ensures { IfOk result (λ op. TakesPlain (⟦<StreamTableOp as Operator>⟧.node op)) }
{
    let node = Node::JoinStreamTable {
        kind: JoinKind::Left,
        on: column(0),
        left: LEFT,
        right: RIGHT,
    };
    let nodes = vec![in alloc; node]?;
    StreamTableOp::new(alloc, &nodes[0])
}

pub fn table_table(alloc: Global) -> Result<TableTableOp, AllocError>
    ensures { IfOk result (λ op. TakesPlain (⟦<TableTableOp as Operator>⟧.node op)) }
{
    let node = Node::JoinTables {
        kind: JoinKind::Full,
        left: LEFT,
        right: RIGHT,
    };
    let nodes = vec![in alloc; node]?;
    TableTableOp::new(alloc, &nodes[0])
}

/// COUNT(*).
fn count_all(alloc: Global) -> Result<Aggs, AllocError>
    ensures { IfOk result (λ aggs. aggs ≡ count_all) }
{
    let count = Agg {
        fun: AggFun::CountAll,
        arg: None,
    };
    Ok(Items::of(vec![in alloc; count]?))
}

/// One column.
fn columns(alloc: Global, index: u32) -> Result<Exprs, AllocError> {
    Ok(Items::of(vec![in alloc; column(index)]?))
}

fn column(index: u32) -> Typed {
    Typed {
        ty: Some(SqlType::Big),
        node: TypedNode::Column(index),
    }
}
