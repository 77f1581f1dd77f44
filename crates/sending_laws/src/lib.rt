//! Laws of what the tasks of a topology send: its columns, its sizes, the feeds that it is of, and the order of the sub-topologies.
#![tactic(auto)]
