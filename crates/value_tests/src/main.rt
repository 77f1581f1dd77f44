//! Walks the rows of its tables: how places, records and keys stand in order, what records say, the bytes and lanes of
//! keys, and what a catalog finds. Prints how many rows of each table come out right, and each row that doesn't.
#![tactic(auto)]

mod catalogs;
mod keys;
mod places;
mod sayings;
mod texts;

use anyhow::Result;
use core_state::{Journal, LogEntry, Proposal};
use row_tables::{Finds, walk};
use std::alloc::{AllocError, Global};
use std::fs;

/// The tables, in the order in which they are printed.
const TABLES: [&str; 9] = [
    "places", "between", "orders", "said", "skipped", "keys", "lanes", "compared", "catalog",
];

/// Compiles only for a type whose values may be sent to another thread, and read from several.
fn crosses_threads<T: Send + Sync>() {}

fn main(rt: HostRuntime) -> Result<()> {
    crosses_threads::<Journal>();
    crosses_threads::<LogEntry>();
    crosses_threads::<Proposal>();
    for table in TABLES {
        let file = fs::read_to_string(&rt, table)?;
        let report = walk(rt.alloc(), &Tables, table, file.as_str())?;
        println!(rt; "{report}")?;
    }
    Ok(())
}

/// The tables of values, places and records.
struct Tables;

impl Finds for Tables {
    fn found(&self, alloc: Global, table: &str, text: &str) -> Result<String, AllocError> {
        match table {
            "places" => places::compared(alloc, text),
            "between" => places::compared_between(alloc, text),
            "orders" => places::ordered(alloc, text),
            "said" => sayings::said(alloc, text),
            "skipped" => sayings::skipped(alloc, text),
            "keys" => keys::hashed(alloc, text),
            "lanes" => keys::lane_of(alloc, text),
            "compared" => keys::compared(alloc, text),
            _ => catalogs::told(alloc, text),
        }
    }
}
