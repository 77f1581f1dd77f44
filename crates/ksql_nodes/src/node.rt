use ksql_expr::{Exprs, Typed};
use ksql_program::{Aggs, JoinKind};
use ksql_types::{CopyOf, Items, Kind, Window};
use std::alloc::{AllocError, Global};

/// One side of a join: its relation, and its number of columns, key columns included.
#[derive(Clone, Copy, Debug, PartialEq, Eq)]
pub struct Side {
    pub relation: u32,
    pub columns: u32,
}

/// One step of a query within a sub-topology. The rows of incoming changes are whole, key columns first. `on` of a join
/// and the key of a `Rekey` are over the left side's rows. From `Aggregate` to `Select`, a row has the group's key, the
/// aggregates and, if windowed, the window's start and end.
#[derive(Debug, Drop)]
pub enum Node {
    Rekey {
        key: Typed,
    },
    Table {
        relation: u32,
    },
    JoinStreamTable {
        kind: JoinKind,
        on: Typed,
        left: Side,
        right: Side,
    },
    JoinTables {
        kind: JoinKind,
        left: Side,
        right: Side,
    },
    Filter {
        on: Typed,
    },
    Group {
        keys: Exprs,
    },
    Aggregate {
        over: Kind,
        aggs: Aggs,
        window: Option<Window>,
    },
    Having {
        on: Typed,
    },
    Select {
        keys: Exprs,
        values: Exprs,
    },
}

/// Nodes, in order.
pub type Nodes = Items<Node>;

impl CopyOf for Node {
    fn copy(&self, alloc: Global) -> Result<Node, AllocError> {
        match self {
            Node::Rekey { key } => Ok(Node::Rekey {
                key: key.copy(alloc)?,
            }),
            Node::Table { relation } => Ok(Node::Table {
                relation: *relation,
            }),
            Node::JoinStreamTable {
                kind,
                on,
                left,
                right,
            } => Ok(Node::JoinStreamTable {
                kind: *kind,
                on: on.copy(alloc)?,
                left: *left,
                right: *right,
            }),
            Node::JoinTables { kind, left, right } => Ok(Node::JoinTables {
                kind: *kind,
                left: *left,
                right: *right,
            }),
            Node::Filter { on } => Ok(Node::Filter {
                on: on.copy(alloc)?,
            }),
            Node::Group { keys } => Ok(Node::Group {
                keys: keys.copy(alloc)?,
            }),
            Node::Aggregate { over, aggs, window } => Ok(Node::Aggregate {
                over: *over,
                aggs: aggs.copy(alloc)?,
                window: *window,
            }),
            Node::Having { on } => Ok(Node::Having {
                on: on.copy(alloc)?,
            }),
            Node::Select { keys, values } => Ok(Node::Select {
                keys: keys.copy(alloc)?,
                values: values.copy(alloc)?,
            }),
        }
    }
}
