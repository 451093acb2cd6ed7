//! Evaluation: the steps by which a query's rows are found, each exactly its definition as a list, and the standard form of a query.
#![tactic(auto)]

mod alike;
mod cells;
mod eval;
mod filter;
mod group;
mod join;
mod result;
mod select;
mod standard;
mod standard_node;
mod steps;
mod tree_rows;
mod union;
mod values;

pub use eval::Eval;
pub use filter::{keep_rows, keeps_all_rows};
pub use group::group_tuples;
pub use join::{cross_and_pad_rows, cross_rows, join_pairs, left_join_pairs};
pub use select::{first_rows, has_double_selected, select_rows};
pub use standard::{Standard, standard_form};
pub use steps::{filter_rows, group_rows, join_rows, left_rows, project, union_rows};
pub use tree_rows::{answer, input_rows, node_rows, query_rows, rows};
pub use union::unite_rows;
