//! Walks the rows of its table: what nodes of queries give by looking back and by their operators, and what a chain, a task
//! and a whole query give. Prints how many rows come out right, and each row that doesn't.
#![tactic(auto)]

mod aggregates;
mod chains;
mod changes;
mod joins;
mod joins_groups;
mod meanings;
mod steps;
mod tasks;

use agg_ops::{AggOp, WindowAggOp};
use anyhow::Result;
use join_ops::{StreamTableOp, TableTableOp};
use op_chain::Entry;
use row_ops::{FilterOp, RekeyOp, SelectOp, TableOp};
use row_tables::{Finds, walk};
use std::alloc::{AllocError, Global};
use std::fs;

/// Compiles only for a type whose values may be sent to another thread, and read from several.
fn crosses_threads<T: Send + Sync>() {}

fn operators_cross_threads() {
    crosses_threads::<AggOp>();
    crosses_threads::<WindowAggOp>();
    crosses_threads::<Entry>();
    crosses_threads::<StreamTableOp>();
    crosses_threads::<TableTableOp>();
    crosses_threads::<FilterOp>();
    crosses_threads::<RekeyOp>();
    crosses_threads::<SelectOp>();
    crosses_threads::<TableOp>();
}

fn main(rt: HostRuntime) -> Result<()> {
    operators_cross_threads();
    let file = fs::read_to_string(&rt, "nodes")?;
    let report = walk(rt.alloc(), &Nodes, "nodes", file.as_str())?;
    println!(rt; "{report}")?;
    Ok(())
}

/// The table of what nodes give.
struct Nodes;

impl Finds for Nodes {
    fn found(&self, alloc: Global, _table: &str, text: &str) -> Result<String, AllocError> {
        match text {
            "rows in windows that overlap" => aggregates::hopping(alloc),
            "rows in windows one after another" => aggregates::tumbling(alloc),
            "two rows through a filter" => chains::passed(alloc),
            "a FULL join" => joins::full_join(alloc),
            "a LEFT join" => joins::left_join(alloc),
            "groups of a table" => joins_groups::grouped(alloc),
            "aggregates of a stream" => steps::aggregates(alloc),
            "a query" => meanings::meaning(alloc),
            "no windows" => meanings::windowless(alloc),
            _ => tasks::gone(alloc),
        }
    }
}
