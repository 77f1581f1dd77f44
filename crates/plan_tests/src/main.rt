//! Walks the rows of its tables: the plans of queries, the tasks of the topologies that these are cut into, and the text that
//! explains a topology. Prints how many rows of each table come out right, and each row that doesn't.
#![tactic(auto)]

mod plans;
mod scripts;
mod texts;
mod topologies;

use anyhow::Result;
use row_tables::{Finds, walk};
use std::alloc::{AllocError, Global};
use std::fs;

/// The tables, in the order in which they are printed.
const TABLES: [&str; 4] = ["plans", "tasks", "explanations", "scripts"];

fn main(rt: HostRuntime) -> Result<()> {
    for table in TABLES {
        let file = fs::read_to_string(&rt, table)?;
        let report = walk(rt.alloc(), &Tables, table, file.as_str())?;
        println!(rt; "{report}")?;
    }
    Ok(())
}

/// The tables of plans and topologies.
struct Tables;

impl Finds for Tables {
    fn found(&self, alloc: Global, table: &str, text: &str) -> Result<String, AllocError> {
        match table {
            "plans" => plans::planned(alloc, text),
            "tasks" => topologies::tasks(alloc, text),
            "explanations" => topologies::explained(alloc, text),
            _ => scripts::explained(alloc, text),
        }
    }
}
