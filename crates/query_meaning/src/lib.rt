//! What queries mean: the changes of each relation of a program. This crate has definitions and lemmas alone.
#![tactic(auto)]
