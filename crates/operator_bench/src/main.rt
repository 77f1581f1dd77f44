//! Steps one operator over ENTRIES entries to see what an entry costs: `operator_bench OPERATOR ENTRIES`, or all
//! operators with `each` for OPERATOR. It prints how many changes the operator gave, and how many entries its changelog
//! had.
#![tactic(auto)]

mod drive;
mod entries;
mod operators;

use crate::drive::counts_of;
use std::env;
use std::env::Env;
use std::process::ExitCode;

const OPERATORS: [&str; 8] = [
    "select",
    "filter",
    "group",
    "table",
    "count",
    "table-count",
    "stream-table",
    "table-table",
];

fn main(rt: HostRuntime) -> ExitCode {
    match run(&rt) {
        Some(()) => ExitCode::SUCCESS,
        None => ExitCode::from(2),
    }
}

/// Runs the command line of the process; None if it names no operator and number, or memory ran out.
fn run<R: AllocGlobal + Env + Print>(rt: &R) -> Option<()> {
    let mut words = env::args(rt).ok()?;
    let _program = words.next()?;
    let operator = words.next()?;
    let entries = words.next()?.as_str().parse::<u32>().ok()?;
    if operator.as_str() != "each" {
        return print_counts(rt, operator.as_str(), entries);
    }
    for operator in OPERATORS {
        print_counts(rt, operator, entries)?;
    }
    Some(())
}

/// Prints what an operator gives.
fn print_counts<R: AllocGlobal + Print>(rt: &R, operator: &str, entries: u32) -> Option<()> {
    let counts = counts_of(rt.alloc(), operator, entries).ok()??;
    println!(rt; "{operator} {entries} {} {}", counts.given, counts.logged).ok()
}
