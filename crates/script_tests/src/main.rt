//! Walks the rows of its tables: what is read of scripts, from their tokens to their programs, and what their
//! expressions give. Prints how many rows of each table come out right, and each row that doesn't.
#![tactic(auto)]

mod expressions;
mod programs;
mod statements;
mod tokens;
mod values;

use anyhow::Result;
use row_tables::{Finds, walk};
use std::alloc::{AllocError, Global};
use std::fs;

/// The tables, in the order in which they are printed.
const TABLES: [&str; 10] = [
    "tokens",
    "trees",
    "expressions",
    "lists",
    "groups",
    "programs",
    "values",
    "types",
    "conditions",
    "nodes",
];

fn main(rt: HostRuntime) -> Result<()> {
    for table in TABLES {
        let file = fs::read_to_string(&rt, table)?;
        let report = walk(rt.alloc(), &Scripts, table, file.as_str())?;
        println!(rt; "{report}")?;
    }
    Ok(())
}

/// The tables of scripts and of parts of them.
struct Scripts;

impl Finds for Scripts {
    fn found(&self, alloc: Global, table: &str, text: &str) -> Result<String, AllocError> {
        match table {
            "tokens" => tokens::shown(alloc, text),
            "trees" => statements::answer(alloc, text),
            "expressions" => expressions::tree(alloc, text),
            "lists" => expressions::list(alloc, text),
            "groups" => expressions::held(alloc, text),
            "programs" => programs::names(alloc, text),
            "nodes" => values::value_of_node(alloc, text),
            _ => values::of_script(alloc, table, text),
        }
    }
}
