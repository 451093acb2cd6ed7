//! What the program touches of the world: a folder to read from, a sink to write to, a gate between turns.
#![tactic(auto)]

mod disk_folder;
mod fault;
mod files;
mod folder;
mod gate;
mod mem_folder;
mod mem_sink;
mod numbers;
mod reader;
mod sink;
mod std_sink;
mod sure;

pub use disk_folder::DiskFolder;
pub use fault::{Failed, FolderFault, WriteFault};
pub use folder::Folder;
pub use gate::{Gate, OpenGate};
pub use mem_folder::MemFolder;
pub use mem_sink::MemSink;
pub use sink::{Sink, write_all};
pub use std_sink::StdSink;
pub use sure::{SureFolder, SureSink};
