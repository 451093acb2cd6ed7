//! A table, read from the bytes of its file.
#![tactic(auto)]

mod cell;
mod columns;
mod fault;
mod header;
mod reading;
mod rows;
mod size;

pub use fault::TableFault;
pub use reading::read_table;
pub use size::Size;
