//! A round hands out items to threads, each item once, and takes them back with the numbers that the threads drew for
//! them.
#![tactic(auto)]

mod bring;
mod closing;
mod item;
mod opening;
mod plays;
mod steps;
mod table;

pub use item::Item;
pub use opening::Opened;
pub use table::{Claim, Round};

#[cfg(test)]
mod tests;
