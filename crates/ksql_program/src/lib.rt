//! A script in the form in which it runs: its relations and its queries.
#![tactic(auto)]

mod copies;
mod program;
mod query;

pub use program::{Item, Program, ProgramItems, relation_of};
pub use query::{Agg, Aggs, From, JoinKind, Query, Shape};
