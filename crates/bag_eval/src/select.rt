ghost use Rattle.std.specs.Prelude.{◌≡◌, ◌∷◌, ◌++◌, [], IfOk, OnOk, map, if◌then◌else◌};
ghost use Rattle.std.specs.List.{list_any};
ghost use Rattle.value_core.specs.Value.{same};
ghost use Rattle.predicate_core.specs.Truth.{value_at};
ghost use Rattle.table_core.specs.Bag.{same_cells, has_double};
ghost use Rattle.query_core.specs.Meaning.{selected};
ghost use Rattle.query_core.specs.Firsts.{projected, firsts};

use sqlite_items::Items;
use std::alloc::Global;
use table_core::{Tuple, same_cells};
use value_core::{OutOfMemory, Value, same};

// A copy of the value at a place, NULL where there is none.
pub(crate) fn copy_at(alloc: Global, row: &[Value], at: usize) -> Result<Value, OutOfMemory>
    ensures { IfOk result (λ v. v ≡ value_at row.now at) }
{
    match row.get(at) {
        Some(value) => value.copy(alloc),
        None => Ok(Value::Null),
    }
}

// The row of these columns of a row.
pub(crate) fn select_row(
    alloc: Global,
    picks: &[usize],
    row: &[Value],
) -> Result<Tuple, OutOfMemory>
    ensures { IfOk result (λ t. t ≡ projected picks.now row.now) }
{
    let mut cells = Vec::new(alloc);
    for at in picks {
        cells.push(copy_at(alloc, row, *at)?)?;
    }
    Ok(Tuple::of(cells))
}

/// Each row projected to these columns.
pub fn select_rows(
    alloc: Global,
    picks: &[usize],
    rows: &[Tuple],
) -> Result<Items<Tuple>, OutOfMemory>
    ensures { IfOk result (λ out. out ≡ selected picks.now rows.now) }
{
    let mut out = Items::new(alloc);
    for row in rows {
        out.push(select_row(alloc, picks, row.cells())?)?;
    }
    Ok(out)
}

// Whether the values at a place of two rows are the same, NULL where there is none.
fn same_at(a: &[Value], b: &[Value], at: usize) -> bool
    ensures { result ≡ same (value_at a.now at) (value_at b.now at) }
{
    match (a.get(at), b.get(at)) {
        (Some(a), Some(b)) => same(a, b),
        (Some(Value::Null), None) | (None, Some(Value::Null)) | (None, None) => true,
        _ => false,
    }
}

// Whether two rows are the same at these columns.
fn same_selected(picks: &[usize], a: &[Value], b: &[Value]) -> bool
    ensures { result ≡ same_cells (projected picks.now a.now) (projected picks.now b.now) }
{
    for at in picks {
        if !same_at(a, b, *at) {
            return false;
        }
    }
    true
}

// Whether the value at a place, NULL where there is none, is the same as another.
fn same_value_at(row: &[Value], at: usize, other: &Value) -> bool
    ensures { result ≡ same (value_at row.now at) other.now }
{
    match row.get(at) {
        Some(value) => same(value, other),
        None => same(&Value::Null, other),
    }
}

// Whether a row, projected to these columns, is the same as another row.
pub(crate) fn selects_row(picks: &[usize], row: &[Value], other: &[Value]) -> bool
    ensures { result ≡ same_cells (projected picks.now row.now) other.now }
{
    if picks.len() != other.len() {
        return false;
    }
    for i in 0..picks.len() {
        if !same_value_at(row, picks[i], &other[i]) {
            return false;
        }
    }
    true
}

// Whether some of these rows is the same as a row at these columns.
fn has_selected(picks: &[usize], rows: &[Tuple], row: &[Value]) -> bool
    ensures { result ≡ list_any (λ r. same_cells r (projected picks.now row.now)) (selected picks.now rows.now) }
{
    for other in rows {
        if same_selected(picks, other.cells(), row) {
            return true;
        }
    }
    false
}

/// Whether two of these rows are the same at these columns.
pub fn has_double_selected(picks: &[usize], rows: &[Tuple]) -> bool
    ensures { result ≡ has_double (selected picks.now rows.now) }
{
    for i in 0..rows.len() {
        if has_selected(picks, &rows[i + 1..], rows[i].cells()) {
            return true;
        }
    }
    false
}

// Whether a row is among these rows.
pub(crate) fn has_row(rows: &[Tuple], row: &[Value]) -> bool
    ensures { result ≡ list_any (λ r. same_cells r row.now) rows.now }
{
    rows.iter().any(|r| same_cells(r.cells(), row))
}

// Appends a copy of a row, if it isn't among the rows so far.
pub(crate) fn push_first(
    alloc: Global,
    out: &mut Items<Tuple>,
    row: &Tuple,
) -> Result<(), OutOfMemory>
    ensures { OnOk result (out.new ≡ out.old ++ (if list_any (λ r. same_cells r row.now) out.old then [] else row.now ∷ [])) }
{
    if !has_row(out.as_slice(), row.cells()) {
        out.push(row.copy(alloc)?)?;
    }
    Ok(())
}

/// Each of these rows once, at its first place.
#[tactic(auto, using(crate::proofs::FirstLaws::firsts_push))]
pub fn first_rows(alloc: Global, rows: &[Tuple]) -> Result<Items<Tuple>, OutOfMemory>
    ensures { IfOk result (λ out. out ≡ firsts rows.now) }
{
    let mut out = Items::new(alloc);
    for row in rows {
        push_first(alloc, &mut out, row)?;
    }
    Ok(out)
}
