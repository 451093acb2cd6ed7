ghost use Rattle.std.specs.Prelude.{◌≡◌, map, IfOk};
ghost use Rattle.over_cells.specs.Cells.{value_of, is_known};
ghost use Rattle.over_eval.specs.Over.{exact_row, cell_at, cells_at, knows, plain};

use crate::row::AbsRow;
use over_cells::AbsCell;
use sqlite_items::Items;
use std::alloc::Global;
use table_core::Tuple;
use value_core::{OutOfMemory, Value};

/// The abstract row of a row that is known.
pub fn exact_row(alloc: Global, row: &[Value]) -> Result<AbsRow, OutOfMemory>
    ensures { IfOk result (λ cells. cells ≡ exact_row row.now) }
{
    let mut cells = Vec::new(alloc);
    for value in row {
        cells.push(AbsCell::Known(value.copy(alloc)?))?;
    }
    Ok(AbsRow::of(cells))
}

/// The abstract rows of rows that are known.
pub fn exact_rows(alloc: Global, rows: &[Tuple]) -> Result<Items<AbsRow>, OutOfMemory>
    ensures { IfOk result (λ out. out ≡ map exact_row rows.now) }
{
    let mut out = Items::new(alloc);
    for row in rows {
        out.push(exact_row(alloc, row.cells())?)?;
    }
    Ok(out)
}

/// Copies of these rows.
pub fn copied_rows(alloc: Global, rows: &[AbsRow]) -> Result<Items<AbsRow>, OutOfMemory>
    ensures { IfOk result (λ out. out ≡ rows.now) }
{
    let mut out = Items::new(alloc);
    for row in rows {
        out.push(row.copy(alloc)?)?;
    }
    Ok(out)
}

/// A copy of the cell of a column, a known NULL where there is none.
pub fn cell_at(alloc: Global, cells: &[AbsCell], at: usize) -> Result<AbsCell, OutOfMemory>
    ensures { IfOk result (λ cell. cell ≡ cell_at cells.now at) }
{
    match cells.get(at) {
        Some(cell) => cell.copy(alloc),
        None => Ok(AbsCell::Known(Value::Null)),
    }
}

/// Copies of the cells of these columns.
pub fn cells_at(alloc: Global, picks: &[usize], cells: &[AbsCell]) -> Result<AbsRow, OutOfMemory>
    ensures { IfOk result (λ picked. picked ≡ cells_at picks.now cells.now) }
{
    let mut picked = Vec::new(alloc);
    for at in picks {
        picked.push(cell_at(alloc, cells, *at)?)?;
    }
    Ok(AbsRow::of(picked))
}

// Whether the cell of a column is known.
fn is_known_at(cells: &[AbsCell], at: usize) -> bool
    ensures { result ≡ is_known (cell_at cells.now at) }
{
    match cells.get(at) {
        Some(cell) => cell.is_known(),
        None => true,
    }
}

/// Whether the key cells of a row are known.
pub fn knows(keys: &[usize], cells: &[AbsCell]) -> bool
    ensures { result ≡ knows keys.now cells.now }
{
    for at in keys {
        if !is_known_at(cells, *at) {
            return false;
        }
    }
    true
}

/// The values of an abstract row, NULL where one isn't known.
pub fn plain(alloc: Global, cells: &[AbsCell]) -> Result<Tuple, OutOfMemory>
    ensures { IfOk result (λ row. row ≡ plain cells.now) }
{
    let mut values = Vec::new(alloc);
    for cell in cells {
        values.push(cell.value(alloc)?)?;
    }
    Ok(Tuple::of(values))
}

/// The values of abstract rows, NULL where one isn't known.
pub fn plain_rows(alloc: Global, rows: &[AbsRow]) -> Result<Items<Tuple>, OutOfMemory>
    ensures { IfOk result (λ out. out ≡ map plain rows.now) }
{
    let mut out = Items::new(alloc);
    for row in rows {
        out.push(plain(alloc, row.cells())?)?;
    }
    Ok(out)
}
