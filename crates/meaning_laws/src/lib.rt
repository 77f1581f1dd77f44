//! Laws of the meaning of programs.
#![tactic(auto)]

mod laws;

pub use laws::{
    changes_are_small, changes_have_columns, old_is_the_latest_new, places_rise, prefixes_are_meant,
};
