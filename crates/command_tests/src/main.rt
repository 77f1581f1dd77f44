//! Walks the rows of its tables: the status that each command of the program ends with, and what it writes, on scripts,
//! topic files and schedules. Prints how many rows of each table come out right, and each row that doesn't.
#![tactic(auto)]

mod commands;

use crate::commands::ended;
use anyhow::Result;
use row_tables::{Finds, walk};
use std::alloc::{AllocError, Global};
use std::fs;

/// The tables, in the order in which they are printed.
const TABLES: [&str; 4] = ["commands", "scripts", "values", "schedules"];

fn main(rt: HostRuntime) -> Result<()> {
    for table in TABLES {
        let file = fs::read_to_string(&rt, table)?;
        let report = walk(rt.alloc(), &Tables, table, file.as_str())?;
        println!(rt; "{report}")?;
    }
    Ok(())
}

/// The tables of commands.
struct Tables;

impl Finds for Tables {
    fn found(&self, alloc: Global, _table: &str, text: &str) -> Result<String, AllocError> {
        ended(alloc, text)
    }
}
