//! Laws of stored values: the operator of a node can store whatever comes to the node in the topology of a sound
//! program.
#![tactic(auto)]

mod laws;

pub use laws::{
    changes_can_be_stored, nodes_keep_changes_short, parts_can_be_stored, results_rise,
    topics_are_short, values_stay_short,
};
