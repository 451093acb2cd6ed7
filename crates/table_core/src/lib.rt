//! Tables as bags of typed rows, and tasks within their limits.
#![tactic(auto)]

mod agg_set;
mod bag;
mod column;
mod limits;
mod table;
mod task;
mod tuple;

pub use agg_set::AggSet;
pub use bag::{count, count_in, has_double, has_double_row, same_bag, same_cells, same_rows};
pub use column::Column;
pub use limits::{
    LARGEST_BUDGET, LONGEST_FILE, LONGEST_FILE_NAME, MOST_ATOMS, MOST_COLUMNS, MOST_CONSTANTS,
    MOST_INPUTS, MOST_LEAVES, MOST_OPS, MOST_OUTPUT_COLUMNS, MOST_OUTPUT_ROWS, MOST_ROWS,
    MOST_SHOWN,
};
pub use table::{PushFault, Table};
pub use task::{BadPart, Task, TaskParts};
pub use tuple::Tuple;
