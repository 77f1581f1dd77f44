//! Where `ksql` reads its files and writes its output, and the gate that its threads pass.
#![tactic(auto)]

mod dir_folder;
mod folder;
mod gate;
mod mem_folder;
mod mem_sink;
mod sink;
mod std_sink;

pub use dir_folder::DirFolder;
pub use folder::{Folder, ReadFail};
pub use gate::{Gate, NoGate};
pub use mem_folder::MemFolder;
pub use mem_sink::MemSink;
pub use sink::{Failed, Sink, write_whole};
pub use std_sink::StdSink;
