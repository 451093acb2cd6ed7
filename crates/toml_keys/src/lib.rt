//! What is read at the keys of a TOML table, each with the exact answer: the value, or what is wrong with the key.
#![tactic(auto)]

mod document;
mod fault;
mod keys;
mod values;

pub use document::read_document;
pub use fault::{KeyFault, bad_key, under};
pub use keys::{Bounds, check_known, is_among, number_or, present, table_at, text_at, value_at};
pub use values::{array_of, number_of, text_of};
