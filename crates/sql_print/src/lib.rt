//! Printed SQL: the text of a query, and the text of a run.
#![tactic(auto)]

mod derived_source;
mod group_source;
mod input;
mod join_source;
mod literal;
mod part;
mod predicate;
mod push;
mod run;
mod select;
mod tree;

pub use run::text;
pub use select::sql;
