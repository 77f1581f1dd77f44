//! Tests of the text of reports: on a program's meaning, and on what a broker shows.
#![tactic(auto)]

#[cfg(test)]
mod brokers;
#[cfg(test)]
mod columns;
#[cfg(test)]
mod reports;
