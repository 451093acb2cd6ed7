//! Abstract rows: what the rows of a skeleton can be under every choice of predicates, and which skeletons can give the output.
#![tactic(auto)]

mod below;
mod groups;
mod kept;
mod laws;
mod live_numbers;
mod members;
mod pairs;
mod part_over;
mod row;
mod rows;
mod serve;
mod tree_over;

pub use below::OverBelow;
pub use laws::{never_where_a_part_has_no_rows, rows_are_covered, what_is_not_live_has_no_answer};
pub use live_numbers::live;
pub use row::AbsRow;
pub use serve::serves;
pub use tree_over::{over, over_node};
