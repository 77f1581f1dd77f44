//! Laws of what is short: values, changes, and the records that are fed.
#![tactic(auto)]
