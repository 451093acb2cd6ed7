ghost use Rattle.std.specs.Prelude.{◌≡◌, map, IfOk};
ghost use Rattle.std.specs.List.{list_all};
ghost use Rattle.query_core.specs.Groups.{group_keys};
ghost use Rattle.over_eval.specs.Over.{plain, knows, group_over, any_group, groups_over};

use crate::members::{cell_of, members_over};
use crate::row::AbsRow;
use crate::rows::{cells_at, exact_row, knows, plain_rows};
use bag_eval::{first_rows, select_rows};
use over_cells::AbsCell;
use query_core::Agg;
use sqlite_items::Items;
use std::alloc::Global;
use table_core::Tuple;
use value_core::{OutOfMemory, Value};

/// The row of a group: its key, and then the aggregate's cell.
pub fn group_over(
    alloc: Global,
    keys: &[usize],
    agg: &Agg,
    over: &[AbsRow],
    key: &[Value],
) -> Result<AbsRow, OutOfMemory>
    ensures { IfOk result (λ row. row ≡ group_over keys.now agg.now over.now key.now) }
{
    let members = members_over(alloc, keys, over, key)?;
    let cell = cell_of(alloc, keys, agg, members.as_slice())?;
    exact_row(alloc, key)?.with_cell(cell)
}

/// The row of a group that isn't known: its key cells, and then any value.
pub fn any_group(alloc: Global, keys: &[usize], cells: &[AbsCell]) -> Result<AbsRow, OutOfMemory>
    ensures { IfOk result (λ row. row ≡ any_group keys.now cells.now) }
{
    cells_at(alloc, keys, cells)?.with_cell(AbsCell::Any)
}

// The keys of the groups; without key columns the empty key, for all rows.
fn group_keys(alloc: Global, keys: &[usize], rows: &[Tuple]) -> Result<Items<Tuple>, OutOfMemory>
    ensures { IfOk result (λ out. out ≡ group_keys keys.now rows.now) }
{
    if keys.is_empty() {
        let mut out = Items::new(alloc);
        out.push(Tuple::of(Vec::new(alloc)))?;
        Ok(out)
    } else {
        let selected = select_rows(alloc, keys, rows)?;
        first_rows(alloc, selected.as_slice())
    }
}

// The rows of the groups, one for each key.
fn known_groups(
    alloc: Global,
    keys: &[usize],
    agg: &Agg,
    over: &[AbsRow],
) -> Result<Items<AbsRow>, OutOfMemory>
    ensures { IfOk result (λ out. out ≡ map (group_over keys.now agg.now over.now) (group_keys keys.now (map plain over.now))) }
{
    let values = plain_rows(alloc, over)?;
    let found = group_keys(alloc, keys, values.as_slice())?;
    let mut out = Items::new(alloc);
    for key in found.as_slice() {
        out.push(group_over(alloc, keys, agg, over, key.cells())?)?;
    }
    Ok(out)
}

// A row of any value for each of these rows.
fn any_groups(alloc: Global, keys: &[usize], over: &[AbsRow]) -> Result<Items<AbsRow>, OutOfMemory>
    ensures { IfOk result (λ out. out ≡ map (any_group keys.now) over.now) }
{
    let mut out = Items::new(alloc);
    for row in over {
        out.push(any_group(alloc, keys, row.cells())?)?;
    }
    Ok(out)
}

// Whether the key cells of all of these rows are known.
fn all_know(keys: &[usize], over: &[AbsRow]) -> bool
    ensures { result ≡ list_all (knows keys.now) over.now }
{
    over.iter().all(|row| knows(keys, row.cells()))
}

/// The rows of the groups of some rows: one for each key where all key cells are known, and else one for each row.
pub fn groups_over(
    alloc: Global,
    keys: &[usize],
    agg: &Agg,
    over: &[AbsRow],
) -> Result<Items<AbsRow>, OutOfMemory>
    ensures { IfOk result (λ out. out ≡ groups_over keys.now agg.now over.now) }
{
    if all_know(keys, over) {
        known_groups(alloc, keys, agg, over)
    } else {
        any_groups(alloc, keys, over)
    }
}
