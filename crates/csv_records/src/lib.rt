//! The records of a text of comma-separated fields, all at once.
#![tactic(auto)]

mod reading;
mod record;

pub use reading::read_records;
pub use record::Record;
