//! Abstract cells: each stands for the values that a column may have in some row, whatever predicates are chosen below it.
#![tactic(auto)]

mod aggregate;
mod cell;
mod values;

pub use aggregate::{agg_cell, are_known};
pub use cell::{AbsCell, AggKind};
