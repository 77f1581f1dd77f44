//! The plan of a query: the tree of what it reads and of its steps. It means what the query means.
#![tactic(auto)]

mod copies;
mod planning;
mod relations;
mod tree;

pub use ksql_expr::{Exprs, Typed, TypedNode};
pub use ksql_program::{Agg, Aggs, From, Item, JoinKind, Program, Query, Shape, relation_of};
pub use ksql_types::{Boxed, CopyOf, Items, Kind, Window};
pub use planning::plan;
pub use relations::{key_columns, kind_of};
pub use tree::Plan;
