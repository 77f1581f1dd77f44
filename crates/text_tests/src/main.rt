//! Walks the rows of its tables: topic files and their feeds, values as they are printed, schedules, and traces. Prints
//! how many rows of each table come out right, and each row that doesn't.
#![tactic(auto)]

mod feeds;
mod schedules;
mod streams;
mod topics;
mod traces;
mod values;

use anyhow::Result;
use row_tables::{Finds, walk};
use std::alloc::{AllocError, Global};
use std::fs;

/// The tables, in the order in which they are printed.
const TABLES: [&str; 8] = [
    "files",
    "records",
    "values",
    "rows",
    "ends",
    "feeds",
    "schedules",
    "traces",
];

fn main(rt: HostRuntime) -> Result<()> {
    for table in TABLES {
        let file = fs::read_to_string(&rt, table)?;
        let report = walk(rt.alloc(), &Texts, table, file.as_str())?;
        println!(rt; "{report}")?;
    }
    Ok(())
}

/// The tables of texts that are read, and of the trace that is written.
struct Texts;

impl Finds for Texts {
    fn found(&self, alloc: Global, table: &str, text: &str) -> Result<String, AllocError> {
        match table {
            "files" => topics::refusal(alloc, text),
            "records" => topics::record(alloc, text),
            "feeds" => feeds::stamped(alloc, text),
            "schedules" => schedules::steps(alloc, text),
            "traces" => traces::trace(alloc, text),
            _ => values::printed(alloc, table, text),
        }
    }
}
