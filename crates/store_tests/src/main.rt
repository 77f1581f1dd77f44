//! Walks the rows of its tables: the bytes of records, what stores hold, and what the broker's topics show. Prints how many
//! rows of each table come out right, and each row that doesn't.
#![tactic(auto)]

mod brokers;
mod commits;
mod feeds;
mod records;
mod stores;
mod threads;
mod windows;

use crate::threads::crosses_threads;
use anyhow::Result;
use row_tables::{Finds, walk};
use state_store::Store;
use std::alloc::{AllocError, Global};
use std::fs;
use topic_log::{Broker, Prepared};
use window_store::WStore;

/// The tables, in the order in which they are printed.
const TABLES: [&str; 6] = ["changes", "rows", "news", "stores", "windows", "brokers"];

fn main(rt: HostRuntime) -> Result<()> {
    crosses_threads::<Broker>();
    crosses_threads::<Prepared>();
    crosses_threads::<Store>();
    crosses_threads::<WStore>();
    for table in TABLES {
        let file = fs::read_to_string(&rt, table)?;
        let report = walk(rt.alloc(), &Tables, table, file.as_str())?;
        println!(rt; "{report}")?;
    }
    Ok(())
}

/// The tables of records, stores and brokers.
struct Tables;

impl Finds for Tables {
    fn found(&self, alloc: Global, table: &str, text: &str) -> Result<String, AllocError> {
        match table {
            "changes" => records::change(alloc, text),
            "rows" => records::row(alloc, text),
            "news" => records::new_row(alloc, text),
            "stores" => stores::told(alloc, text),
            "windows" => windows::told(alloc, text),
            _ => brokers::told(alloc, text),
        }
    }
}
