//! Changes and rows as bytes, in format version 1: each has at most one spelling.
#![tactic(auto)]

mod fault;
mod law;
mod reading;
mod skipping;
mod writing;

pub use law::one_spelling;
pub use reading::{decode, decode_row, decode_values};
pub use skipping::decode_new;
pub use writing::{encode, encode_new, encode_row, encode_values};
