ghost use Rattle.std.specs.Prelude.{◌≡◌, ◌++◌, map, option_map, option_copied, IfOk};
ghost use Rattle.query_core.specs.View.{tree};
ghost use Rattle.query_core.specs.Meaning.{input_at};
ghost use Rattle.over_eval.specs.Over.{exact_row, over_pair, groups_over, over_both, exact};

use crate::below::OverBelow;
use crate::groups::groups_over;
use crate::pairs::over_pair;
use crate::row::AbsRow;
use crate::rows::{copied_rows, exact_rows};
use bag_eval::node_rows;
use query_core::{Agg, Node, Pairing};
use sqlite_items::Items;
use std::alloc::Global;
use table_core::{Table, TaskParts};
use value_core::OutOfMemory;

// The rows of an input, none where there is no such input.
pub(crate) fn base_over(
    alloc: Global,
    inputs: &[Table],
    table: usize,
) -> Result<Items<AbsRow>, OutOfMemory>
    ensures { IfOk result (λ out. out ≡ map exact_row (input_at inputs.now table).rows) }
{
    match inputs.get(table) {
        Some(input) => exact_rows(alloc, input.tuples()),
        None => Ok(Items::new(alloc)),
    }
}

// The rows of a tree without holes, each cell known; never any where a sum in it has no value.
pub(crate) fn exact(
    alloc: Global,
    task: &TaskParts,
    node: &Node,
) -> Result<Option<Items<AbsRow>>, OutOfMemory>
    ensures { IfOk result (λ out. out ≡ exact task.now (tree node.now)) }
{
    let constants = task.constants.as_slice();
    match node_rows(alloc, task.inputs.as_slice(), constants, node)? {
        Some(rows) => Ok(Some(exact_rows(alloc, rows.as_slice())?)),
        None => Ok(None),
    }
}

// The rows of a part again.
pub(crate) fn copied_part(
    alloc: Global,
    below: &OverBelow<'_>,
) -> Result<Option<Items<AbsRow>>, OutOfMemory>
    ensures { IfOk result (λ out. out ≡ option_copied below.now.left) }
{
    match below.left {
        Some(rows) => Ok(Some(copied_rows(alloc, rows)?)),
        None => Ok(None),
    }
}

// The rows of a pair of two parts that may never have rows; the right one has so many columns.
pub(crate) fn paired(
    alloc: Global,
    kind: Pairing,
    width: usize,
    below: &OverBelow<'_>,
) -> Result<Option<Items<AbsRow>>, OutOfMemory>
    ensures { IfOk result (λ out. out ≡ over_both (over_pair kind width) (option_copied below.now.left) (option_copied below.now.right)) }
{
    match (below.left, below.right) {
        (Some(lefts), Some(rights)) => {
            let pairs = over_pair(alloc, kind, width, lefts, rights)?;
            Ok(Some(pairs))
        }
        _ => Ok(None),
    }
}

// The rows of the groups of a part that may never have rows.
pub(crate) fn grouped(
    alloc: Global,
    keys: &[usize],
    agg: &Agg,
    below: &OverBelow<'_>,
) -> Result<Option<Items<AbsRow>>, OutOfMemory>
    ensures { IfOk result (λ out. out ≡ option_map (groups_over keys.now agg.now) (option_copied below.now.left)) }
{
    match below.left {
        Some(rows) => Ok(Some(groups_over(alloc, keys, agg, rows)?)),
        None => Ok(None),
    }
}

// The rows of two parts together, which may never have rows.
pub(crate) fn united(
    alloc: Global,
    below: &OverBelow<'_>,
) -> Result<Option<Items<AbsRow>>, OutOfMemory>
    ensures { IfOk result (λ out. out ≡ over_both (λ lefts rights. lefts ++ rights) (option_copied below.now.left) (option_copied below.now.right)) }
{
    match (below.left, below.right) {
        (Some(lefts), Some(rights)) => {
            let mut rows = copied_rows(alloc, lefts)?;
            rows.append(copied_rows(alloc, rights)?)?;
            Ok(Some(rows))
        }
        _ => Ok(None),
    }
}
