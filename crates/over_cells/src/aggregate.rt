ghost use Rattle.std.specs.Prelude.{◌≡◌, ◌<◌, ◌^◌, map, pos, false, IfOk, if◌then◌else◌};
ghost use Rattle.over_cells.specs.Cells.{value_of, are_known};
ghost use Rattle.over_cells.specs.Aggregates.{one_of, sum_within, agg_cell};
ghost use Rattle.over_cells.specs.declared.cell.AbsCell.TheVariants.{Within, Any};

use crate::cell::{AbsCell, AggKind};
use crate::values::{distinct, greatest_sum, least_sum, may_be_null};
use sqlite_items::Items;
use std::alloc::Global;
use value_core::{OutOfMemory, Value};

/// Whether the values of all of these cells are known.
pub fn are_known(cells: &[AbsCell]) -> bool
    ensures { result ≡ are_known cells.now }
{
    cells.iter().all(|cell| cell.is_known())
}

// The values of these cells, NULL where one isn't known.
fn values_of(alloc: Global, cells: &[AbsCell]) -> Result<Items<Value>, OutOfMemory>
    ensures { IfOk result (λ values. values ≡ map value_of cells.now) }
{
    let mut values = Items::new(alloc);
    for cell in cells {
        values.push(cell.value(alloc)?)?;
    }
    Ok(values)
}

// The cell of a count from `lo` to this number of rows.
fn counted(lo: bool, count: u64) -> AbsCell
    requires { count < 2 ^ 63 }
    ensures { result ≡ Within (if lo then pos 1 else pos 0) (pos count) false }
{
    AbsCell::Within {
        lo: i64::from(lo),
        hi: count as i64,
        null: false,
    }
}

// The cell of a smallest or largest value.
fn one_of(alloc: Global, keyed: bool, cells: &[AbsCell]) -> Result<AbsCell, OutOfMemory>
    ensures { IfOk result (λ cell. cell ≡ (if are_known cells.now then one_of keyed (map value_of cells.now) else Any)) }
{
    if !are_known(cells) {
        return Ok(AbsCell::Any);
    }
    let values = values_of(alloc, cells)?;
    Ok(AbsCell::From {
        values: distinct(alloc, values.as_slice())?,
        null: may_be_null(keyed, values.as_slice()),
    })
}

// The cell of a sum.
fn sum_within(alloc: Global, keyed: bool, cells: &[AbsCell]) -> Result<AbsCell, OutOfMemory>
    ensures { IfOk result (λ cell. cell ≡ (if are_known cells.now then sum_within keyed (map value_of cells.now) else Any)) }
{
    if !are_known(cells) {
        return Ok(AbsCell::Any);
    }
    let values = values_of(alloc, cells)?;
    Ok(AbsCell::Within {
        lo: least_sum(values.as_slice()),
        hi: greatest_sum(values.as_slice()),
        null: may_be_null(keyed, values.as_slice()),
    })
}

/// The cell of an aggregate over the rows of a group, any part of which predicates may leave out.
///
/// These are the cells of the aggregate's column, and so many are the rows. A group with keys has at least one row.
pub fn agg_cell(
    alloc: Global,
    kind: AggKind,
    keyed: bool,
    cells: &[AbsCell],
    count: u64,
) -> Result<AbsCell, OutOfMemory>
    requires { count < 2 ^ 63 }
    ensures { IfOk result (λ cell. cell ≡ agg_cell kind keyed cells.now count) }
{
    match kind {
        AggKind::CountAll => Ok(counted(keyed, count)),
        AggKind::Count | AggKind::CountDistinct => Ok(counted(false, count)),
        AggKind::Sum => sum_within(alloc, keyed, cells),
        AggKind::Min | AggKind::Max => one_of(alloc, keyed, cells),
    }
}
