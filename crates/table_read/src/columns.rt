ghost use Rattle.std.specs.Prelude.{◌≡◌, ◌≤◌, length, vec_len, IfOk, true};
ghost use Rattle.table_read.specs.Table.{are_types_of, columns_of, declared_as, has_filled, has_integers, inferred_from, is_filled, kind_of, may_be_integer};

use crate::cell::field;
use csv_records::Record;
use sqlite_items::Items;
use std::alloc::Global;
use table_core::Column;
use value_core::{ColType, OutOfMemory, Word, read_int};

// Whether a record has something in a column.
fn is_filled(at: usize, row: &Record) -> bool
    ensures { result ≡ is_filled at row.now }
{
    !field(row, at).is_empty()
}

// Whether what a record has in a column is empty or spells an integer.
fn may_be_integer(at: usize, row: &Record) -> bool
    ensures { result ≡ may_be_integer at row.now }
{
    let field = field(row, at);
    field.is_empty() || read_int(field).is_some()
}

// Whether some record has something in a column.
fn has_filled(at: usize, rows: &[Record]) -> bool
    ensures { result ≡ has_filled at rows.now }
{
    rows.iter().any(|row| is_filled(at, row))
}

// Whether all that the records have in a column spells integers.
fn has_integers(at: usize, rows: &[Record]) -> bool
    ensures { result ≡ has_integers at rows.now }
{
    rows.iter().all(|row| may_be_integer(at, row))
}

// The type of a column.
fn kind_of(at: usize, rows: &[Record]) -> ColType
    ensures { result ≡ kind_of at rows.now }
{
    if has_filled(at, rows) && has_integers(at, rows) {
        ColType::Int
    } else {
        ColType::Text
    }
}

/// Whether there are as many types as columns, where types are declared.
pub(crate) fn are_types_of(width: usize, types: &Option<Items<ColType>>) -> bool
    ensures { result ≡ are_types_of width types.now }
{
    match types {
        None => true,
        Some(types) => types.len() == width,
    }
}

// The columns of these names, with types read off the rows.
fn inferred(alloc: Global, names: &[Word], rows: &[Record]) -> Result<Vec<Column>, OutOfMemory>
    ensures columns { IfOk result (λ columns. columns.items ≡ inferred_from 0 names.now rows.now) }
    ensures width { IfOk result (λ columns. vec_len columns ≤ length names.now) }
{
    let mut columns = Vec::new(alloc);
    for (at, name) in names.iter().enumerate() {
        let column = Column {
            name: name.copy(alloc)?,
            kind: kind_of(at, rows),
        };
        columns.push(column)?;
    }
    Ok(columns)
}

// The columns of these names and types.
fn declared(alloc: Global, names: &[Word], types: &[ColType]) -> Result<Vec<Column>, OutOfMemory>
    requires { length types.now ≡ length names.now }
    ensures columns { IfOk result (λ columns. columns.items ≡ declared_as names.now types.now) }
    ensures width { IfOk result (λ columns. vec_len columns ≤ length names.now) }
{
    let mut columns = Vec::new(alloc);
    for (at, name) in names.iter().enumerate() {
        let column = Column {
            name: name.copy(alloc)?,
            kind: types[at],
        };
        columns.push(column)?;
    }
    Ok(columns)
}

/// The columns of these names: with the declared types, or with those that are read off the rows.
pub(crate) fn columns_of(
    alloc: Global,
    types: &Option<Items<ColType>>,
    names: &[Word],
    rows: &[Record],
) -> Result<Vec<Column>, OutOfMemory>
    requires { are_types_of (length names.now) types.now ≡ true }
    ensures columns { IfOk result (λ columns. columns.items ≡ columns_of types.now names.now rows.now) }
    ensures width { IfOk result (λ columns. vec_len columns ≤ length names.now) }
{
    match types {
        None => inferred(alloc, names, rows),
        Some(types) => declared(alloc, names, types.as_slice()),
    }
}
