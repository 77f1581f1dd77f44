use ksql_expr::{Exprs, Typed};
use ksql_program::{Aggs, JoinKind};
use ksql_types::{Boxed as Box, Kind, Window};

/// A query as a tree: a relation that it reads, or a step on the plans below it. `on` of a join and the key of a
/// `Rekey` are over the left side's rows, and `out` is the number of the query's own relation.
#[cycle(plan)]
#[derive(Debug, Drop)]
pub enum Plan {
    Source {
        relation: u32,
    },
    Filter {
        on: Typed,
        arg: Box<Plan>,
    },
    Rekey {
        key: Typed,
        arg: Box<Plan>,
    },
    JoinStreamTable {
        kind: JoinKind,
        on: Typed,
        left: Box<Plan>,
        right: Box<Plan>,
    },
    JoinTables {
        kind: JoinKind,
        left: Box<Plan>,
        right: Box<Plan>,
    },
    Group {
        keys: Exprs,
        arg: Box<Plan>,
    },
    Aggregate {
        over: Kind,
        aggs: Aggs,
        window: Option<Window>,
        arg: Box<Plan>,
    },
    Having {
        on: Typed,
        arg: Box<Plan>,
    },
    Select {
        keys: Exprs,
        values: Exprs,
        out: u32,
        arg: Box<Plan>,
    },
}
