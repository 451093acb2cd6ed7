//! The task: a task file and the tables that it names, read from a folder in a stated order.
#![tactic(auto)]

mod fault;
mod file;
mod plan;
mod tables;
mod task;

pub use fault::{TaskEnd, TaskFault};
pub use task::read_task;
