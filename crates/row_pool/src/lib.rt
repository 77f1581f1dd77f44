//! A pool of 64-byte blocks that holds texts, each under a ticket.
//!
//! The blocks stand in one vector, which grows by at least 64 blocks at once, so that it moves what is stored no more
//! often than a vector does. Each block links to the next one of its text, or of the free list. So `put` and `free`
//! find and give back blocks without a search and without memory, and each call costs as much as the blocks of its
//! text.
#![tactic(auto)]

mod block;
mod pool;
#[cfg(test)]
mod tests;

pub use pool::{Pool, Ticket};
