ghost use Rattle.std.specs.Prelude.{◌≡◌, ◌++◌, map, flat_map, IfOk, OnOk, replicate};
ghost use Rattle.value_core.specs.declared.value.Value.TheVariants.{Null};
ghost use Rattle.over_cells.specs.declared.cell.AbsCell.TheVariants.{Known};
ghost use Rattle.over_eval.specs.Over.{pairs_over, padded_over, over_pair};

use crate::row::AbsRow;
use over_cells::AbsCell;
use query_core::Pairing;
use sqlite_items::Items;
use std::alloc::Global;
use value_core::{OutOfMemory, Value};

// Appends the pairs of a left row with each right row.
fn push_pairs(
    alloc: Global,
    out: &mut Items<AbsRow>,
    rights: &[AbsRow],
    left: &[AbsCell],
) -> Result<(), OutOfMemory>
    ensures { OnOk result (out.new ≡ out.old ++ pairs_over rights.now left.now) }
{
    for right in rights {
        out.push(AbsRow::pair(alloc, left, right.cells())?)?;
    }
    Ok(())
}

// The pairs of each left row with each right row.
fn all_pairs(
    alloc: Global,
    lefts: &[AbsRow],
    rights: &[AbsRow],
) -> Result<Items<AbsRow>, OutOfMemory>
    ensures { IfOk result (λ out. out ≡ flat_map (pairs_over rights.now) lefts.now) }
{
    let mut out = Items::new(alloc);
    for left in lefts {
        push_pairs(alloc, &mut out, rights, left.cells())?;
    }
    Ok(out)
}

// The row of so many NULLs.
fn null_row(alloc: Global, width: usize) -> Result<AbsRow, OutOfMemory>
    ensures { IfOk result (λ row. row ≡ replicate width (Known Null)) }
{
    let mut cells = Vec::new(alloc);
    for _ in 0..width {
        cells.push(AbsCell::Known(Value::Null))?;
    }
    Ok(AbsRow::of(cells))
}

// A left row padded with so many NULLs.
fn padded_over(alloc: Global, width: usize, left: &[AbsCell]) -> Result<AbsRow, OutOfMemory>
    ensures { IfOk result (λ row. row ≡ padded_over width left.now) }
{
    let nulls = null_row(alloc, width)?;
    AbsRow::pair(alloc, left, nulls.cells())
}

// Appends each left row padded with so many NULLs.
fn push_padded(
    alloc: Global,
    out: &mut Items<AbsRow>,
    width: usize,
    lefts: &[AbsRow],
) -> Result<(), OutOfMemory>
    ensures { OnOk result (out.new ≡ out.old ++ map (padded_over width) lefts.now) }
{
    for left in lefts {
        out.push(padded_over(alloc, width, left.cells())?)?;
    }
    Ok(())
}

/// The rows of a pair of two parts, of which the right one has so many columns: all pairs, and behind them, of a left join, each left row padded with NULLs.
pub fn over_pair(
    alloc: Global,
    kind: Pairing,
    width: usize,
    lefts: &[AbsRow],
    rights: &[AbsRow],
) -> Result<Items<AbsRow>, OutOfMemory>
    ensures { IfOk result (λ out. out ≡ over_pair kind width lefts.now rights.now) }
{
    match kind {
        Pairing::Join => all_pairs(alloc, lefts, rights),
        Pairing::Left => {
            let mut out = all_pairs(alloc, lefts, rights)?;
            push_padded(alloc, &mut out, width, lefts)?;
            Ok(out)
        }
    }
}
