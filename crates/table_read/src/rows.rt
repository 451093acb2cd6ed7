ghost use Rattle.std.specs.Prelude.{◌≡◌, ◌≤◌, ◌<◌, length, IfOk, MatchResult};
ghost use Rattle.std.specs.Prelude.{Ok as Fine, Err as Wrong};
ghost use Rattle.first_fault.specs.Answer.{Reads, ReadsAs};
ghost use Rattle.first_fault.specs.Reading.{each};
ghost use Rattle.table_read.specs.Table.{cell_at, line_at, tuple_at};

use crate::cell::{cell_of, field};
use crate::fault::TableFault;
use csv_records::Record;
use first_fault::Stop;
use std::alloc::Global;
use table_core::{Column, Tuple};
use value_core::Value;

// Checks that the row at this place is not one too many, and has as many fields as there are columns.
fn check_line(longest: u32, width: usize, at: usize, row: &Record) -> Result<(), TableFault>
    ensures line { MatchResult result (λ _. line_at longest width at row.now ≡ Fine row.now) (λ fault. line_at longest width at row.now ≡ Wrong fault) }
    ensures within { IfOk result (λ _. at < longest) }
{
    if at >= longest as usize {
        return Err(TableFault::TooManyRows);
    }
    if row.len() != width {
        return Err(TableFault::BadWidth { row: at as u32 + 1 });
    }
    Ok(())
}

/// Checks that there are not too many rows, each with as many fields as there are columns.
pub(crate) fn check_lines(longest: u32, width: usize, rows: &[Record]) -> Result<(), TableFault>
    ensures lines { MatchResult result (λ _. each (line_at longest width) 0 rows.now ≡ Fine rows.now) (λ fault. each (line_at longest width) 0 rows.now ≡ Wrong fault) }
    ensures within { IfOk result (λ _. length rows.now ≤ longest) }
{
    for (at, row) in rows.iter().enumerate() {
        check_line(longest, width, at, row)?;
    }
    Ok(())
}

// The value of the row at this place in a column at its place, or that the field spells none.
fn cell_at(
    alloc: Global,
    place: usize,
    row: &Record,
    at: usize,
    column: &Column,
) -> Result<Value, Stop<TableFault>>
    requires row { place < u32.MAX }
    requires column { at < u32.MAX }
    ensures { Reads result (cell_at place row.now at column.now) }
{
    match cell_of(alloc, column.kind, field(row, at))? {
        Some(cell) => Ok(cell),
        None => Err(Stop::Fault(TableFault::BadCell {
            row: place as u32 + 1,
            column: at as u32 + 1,
        })),
    }
}

// The values that the row at this place spells in the columns, or the first field that spells none.
fn tuple_at(
    alloc: Global,
    columns: &[Column],
    place: usize,
    row: &Record,
) -> Result<Tuple, Stop<TableFault>>
    requires row { place < u32.MAX }
    requires columns { length columns.now ≤ u32.MAX }
    ensures { Reads result (tuple_at columns.now place row.now) }
{
    let mut cells = Vec::new(alloc);
    for (at, column) in columns.iter().enumerate() {
        cells.push(cell_at(alloc, place, row, at, column)?)?;
    }
    Ok(Tuple::of(cells))
}

/// The values that the rows spell in the columns, or the first field that spells none.
pub(crate) fn tuples_of(
    alloc: Global,
    columns: &[Column],
    rows: &[Record],
) -> Result<Vec<Tuple>, Stop<TableFault>>
    requires rows { length rows.now ≤ u32.MAX }
    requires columns { length columns.now ≤ u32.MAX }
    ensures { ReadsAs (λ tuples. tuples.items) result (each (tuple_at columns.now) 0 rows.now) }
{
    let mut tuples = Vec::new(alloc);
    for (at, row) in rows.iter().enumerate() {
        tuples.push(tuple_at(alloc, columns, at, row)?)?;
    }
    Ok(tuples)
}
