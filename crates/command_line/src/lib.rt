//! The words of the command line: what they ask for, if they are understood.
#![tactic(auto)]

mod reading;
mod request;
mod word;
mod words;

pub use request::Request;
pub use words::command;
