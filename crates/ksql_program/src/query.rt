use ksql_expr::{AggFun, Exprs, Typed};
use ksql_types::{Items, Relation, Window};

/// A persistent query: what it reads, its WHERE, its shape, and the relation of its result. A row in `from` has the key
/// columns and then the value columns of the left relation, then those of the right one, and in a FULL join a last
/// column ROWKEY.
#[derive(Debug, Drop)]
pub struct Query {
    pub from: From,
    pub filter: Option<Typed>,
    pub shape: Shape,
    pub out: Relation,
}

/// What a query reads: relations, by number. `on` is the left side's join key, over a row in `from`.
#[derive(Debug, Drop)]
pub enum From {
    One {
        relation: u32,
    },
    Join {
        kind: JoinKind,
        left: u32,
        right: u32,
        on: Typed,
    },
}

/// Which rows of a join have a partner.
#[derive(Clone, Copy, Debug, PartialEq, Eq)]
pub enum JoinKind {
    Inner,
    Left,
    Full,
}

/// How a query turns rows into its result. A plain query's keys and values are over a row in `from`. A grouped query's
/// keys, and the arguments of its aggregates, are over a row in `from`; its `having` and `values` are over a row after
/// the grouping, which has the keys, the aggregates and, for a windowed query, the window's start and end.
#[derive(Debug, Drop)]
pub enum Shape {
    Plain {
        keys: Exprs,
        values: Exprs,
    },
    Group {
        keys: Exprs,
        window: Option<Window>,
        aggs: Aggs,
        having: Option<Typed>,
        values: Exprs,
    },
}

/// An aggregate of a grouped query. `arg` is None exactly for COUNT(*).
#[derive(Debug, Drop)]
pub struct Agg {
    pub fun: AggFun,
    pub arg: Option<Typed>,
}

/// The aggregates of a grouped query, without duplicates: those of the items, then those of HAVING.
pub type Aggs = Items<Agg>;
