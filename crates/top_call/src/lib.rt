//! The top call: from words and files to the text of a task.
#![tactic(auto)]

mod end;
mod fault_line;
mod line;
mod listing;
mod piece;
mod run;
mod search;

pub use end::End;
pub use run::scythe;
