//! Tasks that seem drawn at random, each of a number.
#![tactic(auto)]

mod draws;
mod output;
mod tables;
mod task;

pub use task::make;
