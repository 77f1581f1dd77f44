//! Tests of the command line, of files and output, and of the assignment of tasks to workers.
#![tactic(auto)]

#[cfg(test)]
mod assignments;
#[cfg(test)]
mod outside;
#[cfg(test)]
mod words;
