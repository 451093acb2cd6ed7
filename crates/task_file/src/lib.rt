//! The task file: its inputs, its output, its constants, its aggregates and how far the search goes, or its first fault.
#![tactic(auto)]

mod aggregates;
mod constants;
mod fault;
mod input;
mod output;
mod table_file;
mod task;
mod texts;
mod types;

pub use fault::TaskFileFault;
pub use table_file::{InputFile, OutputFile};
pub use task::{TaskFile, read_task_file};
