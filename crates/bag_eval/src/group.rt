ghost use Rattle.std.specs.Prelude.{◌≡◌, ◌∷◌, ◌++◌, ◌<◌, ◌^◌, [], length, map, IfOk, OnOk, if◌then◌else◌};
ghost use Rattle.std.specs.List.{list_any};
ghost use Rattle.table_core.specs.Bag.{same_cells};
ghost use Rattle.query_core.specs.Firsts.{projected, firsts};
ghost use Rattle.query_core.specs.Groups.{values_of, counted, members, aggregate, group_keys, group_row, grouped};

use crate::cells::with_value;
use crate::select::{copy_at, has_row, select_row, selects_row};
use crate::values::{count_distinct, largest, smallest, sum_of};
use query_core::Agg;
use sqlite_items::Items;
use std::alloc::Global;
use table_core::Tuple;
use value_core::{OutOfMemory, Value};

// How many rows the group of a key has.
fn count_members(keys: &[usize], rows: &[Tuple], key: &[Value]) -> usize
    ensures value { result ≡ length (members keys.now rows.now key.now) }
    ensures bound { result < 2 ^ 63 }
{
    rows.iter()
        .filter(|row| selects_row(keys, row.cells(), key))
        .count()
}

// Appends a copy of the value at a place of a row, unless it is NULL or there is none.
fn push_value(
    alloc: Global,
    out: &mut Items<Value>,
    row: &[Value],
    at: usize,
) -> Result<(), OutOfMemory>
    ensures { OnOk result (out.new ≡ out.old ++ values_of at (row.now ∷ [])) }
{
    let value = copy_at(alloc, row, at)?;
    if !value.is_null() {
        out.push(value)?;
    }
    Ok(())
}

// Appends the value of a row's column, if the row is of the group of a key.
fn push_member_value(
    alloc: Global,
    out: &mut Items<Value>,
    column: usize,
    keys: &[usize],
    row: &[Value],
    key: &[Value],
) -> Result<(), OutOfMemory>
    ensures { OnOk result (out.new ≡ out.old ++ values_of column (members keys.now (row.now ∷ []) key.now)) }
{
    if selects_row(keys, row, key) {
        push_value(alloc, out, row, column)
    } else {
        Ok(())
    }
}

// The values of a column that aren't NULL, of the rows of the group of a key.
fn member_values(
    alloc: Global,
    column: usize,
    keys: &[usize],
    rows: &[Tuple],
    key: &[Value],
) -> Result<Items<Value>, OutOfMemory>
    ensures { IfOk result (λ out. out ≡ values_of column (members keys.now rows.now key.now)) }
{
    let mut out = Items::new(alloc);
    for row in rows {
        push_member_value(alloc, &mut out, column, keys, row.cells(), key)?;
    }
    Ok(out)
}

// A count as a value.
fn counted(count: usize) -> Value
    requires { count < 2 ^ 63 }
    ensures { result ≡ counted count }
{
    Value::Int(count as i64)
}

// What an aggregate over a column gives for the rows of the group of a key.
fn aggregate(
    alloc: Global,
    agg: &Agg,
    keys: &[usize],
    rows: &[Tuple],
    key: &[Value],
) -> Result<Option<Value>, OutOfMemory>
    ensures { IfOk result (λ value. value ≡ aggregate agg.now (members keys.now rows.now key.now)) }
{
    match *agg {
        Agg::CountAll => Ok(Some(counted(count_members(keys, rows, key)))),
        Agg::Count(column) => {
            let values = member_values(alloc, column, keys, rows, key)?;
            Ok(Some(counted(values.as_slice().len())))
        }
        Agg::CountDistinct(column) => {
            let values = member_values(alloc, column, keys, rows, key)?;
            Ok(Some(counted(count_distinct(values.as_slice()))))
        }
        Agg::Sum(column) => {
            let values = member_values(alloc, column, keys, rows, key)?;
            Ok(sum_of(values.as_slice()))
        }
        Agg::Min(column) => {
            let values = member_values(alloc, column, keys, rows, key)?;
            Ok(Some(smallest(alloc, values.as_slice())?))
        }
        Agg::Max(column) => {
            let values = member_values(alloc, column, keys, rows, key)?;
            Ok(Some(largest(alloc, values.as_slice())?))
        }
    }
}

// Appends the key of a row, if it isn't among the keys so far.
fn push_key(
    alloc: Global,
    out: &mut Items<Tuple>,
    keys: &[usize],
    row: &[Value],
) -> Result<(), OutOfMemory>
    ensures { OnOk result (out.new ≡ out.old ++ (if list_any (λ r. same_cells r (projected keys.now row.now)) out.old then [] else projected keys.now row.now ∷ [])) }
{
    let key = select_row(alloc, keys, row)?;
    if !has_row(out.as_slice(), key.cells()) {
        out.push(key)?;
    }
    Ok(())
}

// The keys of the rows, each once, at its first place.
#[tactic(auto, using(crate::proofs::FirstLaws::firsts_push))]
fn distinct_keys(alloc: Global, keys: &[usize], rows: &[Tuple]) -> Result<Items<Tuple>, OutOfMemory>
    ensures { IfOk result (λ out. out ≡ firsts (map (projected keys.now) rows.now)) }
{
    let mut out = Items::new(alloc);
    for row in rows {
        push_key(alloc, &mut out, keys, row.cells())?;
    }
    Ok(out)
}

// The keys of the groups; without key columns the empty key, for all rows.
fn group_keys(alloc: Global, keys: &[usize], rows: &[Tuple]) -> Result<Items<Tuple>, OutOfMemory>
    ensures { IfOk result (λ out. out ≡ group_keys keys.now rows.now) }
{
    if keys.is_empty() {
        let mut out = Items::new(alloc);
        out.push(Tuple::of(Vec::new(alloc)))?;
        Ok(out)
    } else {
        distinct_keys(alloc, keys, rows)
    }
}

// The row of the group of a key, if the aggregate gives a value.
fn group_row(
    alloc: Global,
    keys: &[usize],
    agg: &Agg,
    rows: &[Tuple],
    key: &[Value],
) -> Result<Option<Tuple>, OutOfMemory>
    ensures { IfOk result (λ row. row ≡ group_row keys.now agg.now rows.now key.now) }
{
    match aggregate(alloc, agg, keys, rows, key)? {
        Some(value) => Ok(Some(with_value(alloc, key, value)?)),
        None => Ok(None),
    }
}

/// The rows of the groups, in the order of their keys; none at all where a sum leaves 64 bits.
pub fn group_tuples(
    alloc: Global,
    keys: &[usize],
    agg: &Agg,
    rows: &[Tuple],
) -> Result<Option<Items<Tuple>>, OutOfMemory>
    ensures { IfOk result (λ groups. groups ≡ grouped keys.now agg.now rows.now) }
{
    let found = group_keys(alloc, keys, rows)?;
    let mut out = Items::new(alloc);
    for key in found.as_slice() {
        match group_row(alloc, keys, agg, rows, key.cells())? {
            Some(row) => out.push(row)?,
            None => return Ok(None),
        }
    }
    Ok(Some(out))
}
