ghost use Rattle.std.specs.Prelude.{◌≡◌, ◌∷◌, ◌++◌, [], map, IfOk, OnOk};
ghost use Rattle.value_core.specs.Value.{same};
ghost use Rattle.table_core.specs.Bag.{same_cells};
ghost use Rattle.query_core.specs.Firsts.{projected};
ghost use Rattle.over_cells.specs.Cells.{value_of};
ghost use Rattle.over_eval.specs.Over.{cell_at, plain, members_over, agg_kind, agg_cells, has_keys, cell_of};

use crate::row::AbsRow;
use crate::rows::cell_at;
use over_cells::{AbsCell, AggKind, agg_cell};
use query_core::Agg;
use sqlite_items::Items;
use std::alloc::Global;
use value_core::{OutOfMemory, Value, same};

// Whether the value of a column, NULL where it isn't known, is the same as another.
fn same_value_at(cells: &[AbsCell], at: usize, other: &Value) -> bool
    ensures { result ≡ same (value_of (cell_at cells.now at)) other.now }
{
    match cells.get(at) {
        Some(AbsCell::Known(value)) => same(value, other),
        _ => same(&Value::Null, other),
    }
}

// Whether the cells of these columns have these values, NULL where one isn't known.
fn have_values(keys: &[usize], cells: &[AbsCell], values: &[Value]) -> bool
    ensures { result ≡ same_cells (map (λ at. value_of (cell_at cells.now at)) keys.now) values.now }
{
    if keys.len() != values.len() {
        return false;
    }
    for i in 0..keys.len() {
        if !same_value_at(cells, keys[i], &values[i]) {
            return false;
        }
    }
    true
}

// Whether a row has a key.
fn has_key(keys: &[usize], cells: &[AbsCell], key: &[Value]) -> bool
    ensures { result ≡ same_cells (projected keys.now (plain cells.now)) key.now }
{
    have_values(keys, cells, key)
}

// Appends a copy of a row, if it has a key.
fn push_member(
    alloc: Global,
    out: &mut Items<AbsRow>,
    keys: &[usize],
    row: &AbsRow,
    key: &[Value],
) -> Result<(), OutOfMemory>
    ensures { OnOk result (out.new ≡ out.old ++ members_over keys.now (row.now ∷ []) key.now) }
{
    if has_key(keys, row.cells(), key) {
        out.push(row.copy(alloc)?)?;
    }
    Ok(())
}

/// The abstract rows whose known key cells are this key.
pub fn members_over(
    alloc: Global,
    keys: &[usize],
    over: &[AbsRow],
    key: &[Value],
) -> Result<Items<AbsRow>, OutOfMemory>
    ensures { IfOk result (λ out. out ≡ members_over keys.now over.now key.now) }
{
    let mut out = Items::new(alloc);
    for row in over {
        push_member(alloc, &mut out, keys, row, key)?;
    }
    Ok(out)
}

// An aggregate without its column.
fn agg_kind(agg: &Agg) -> AggKind
    ensures { result ≡ agg_kind agg.now }
{
    match *agg {
        Agg::CountAll => AggKind::CountAll,
        Agg::Count(_) => AggKind::Count,
        Agg::CountDistinct(_) => AggKind::CountDistinct,
        Agg::Sum(_) => AggKind::Sum,
        Agg::Min(_) => AggKind::Min,
        Agg::Max(_) => AggKind::Max,
    }
}

// The cells of a column.
fn column_cells(
    alloc: Global,
    column: usize,
    over: &[AbsRow],
) -> Result<Items<AbsCell>, OutOfMemory>
    ensures { IfOk result (λ out. out ≡ map (λ cells. cell_at cells column) over.now) }
{
    let mut out = Items::new(alloc);
    for row in over {
        out.push(cell_at(alloc, row.cells(), column)?)?;
    }
    Ok(out)
}

// The cells of an aggregate's column; none where it has no column.
fn agg_cells(alloc: Global, agg: &Agg, over: &[AbsRow]) -> Result<Items<AbsCell>, OutOfMemory>
    ensures { IfOk result (λ out. out ≡ agg_cells agg.now over.now) }
{
    match *agg {
        Agg::CountAll => Ok(Items::new(alloc)),
        Agg::Count(column) => column_cells(alloc, column, over),
        Agg::CountDistinct(column) => column_cells(alloc, column, over),
        Agg::Sum(column) => column_cells(alloc, column, over),
        Agg::Min(column) => column_cells(alloc, column, over),
        Agg::Max(column) => column_cells(alloc, column, over),
    }
}

// Whether there are key columns.
fn has_keys(keys: &[usize]) -> bool
    ensures { result ≡ has_keys keys.now }
{
    !keys.is_empty()
}

/// The cell of an aggregate over the rows of a group.
pub fn cell_of(
    alloc: Global,
    keys: &[usize],
    agg: &Agg,
    members: &[AbsRow],
) -> Result<AbsCell, OutOfMemory>
    ensures { IfOk result (λ cell. cell ≡ cell_of keys.now agg.now members.now) }
{
    let cells = agg_cells(alloc, agg, members)?;
    let count = members.len() as u64;
    agg_cell(
        alloc,
        agg_kind(agg),
        has_keys(keys),
        cells.as_slice(),
        count,
    )
}
