//! Laws of the wiring of a topology: which sub-topologies write and read each topic, and what a task takes of it.
#![tactic(auto)]
