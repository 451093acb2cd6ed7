ghost use Rattle.std.specs.Prelude.{◌≡◌, List, ◌∷◌, ◌++◌, [], true, reverse, unwrap_or, IfOk, OnOk, Some, None};
ghost use Rattle.std.specs.Fmt.{decimal};
ghost use Rattle.table_core.specs.Rows.{Row};
ghost use Rattle.bag_eval.specs.Results.{rows_fit, column_name, named_columns, result_table, evaluated};

use crate::eval::Eval;
use sqlite_items::Items;
use std::alloc::Global;
use table_core::{Column, Table, Tuple};
use value_core::{ColType, OutOfMemory, Word};

// The name of a column: c and its number.
#[tactic(auto, using(crate::proofs::NameLaws::column_name_is_word))]
fn column_name(alloc: Global, number: usize) -> Result<Word, OutOfMemory>
    ensures { IfOk result (λ name. name ≡ column_name number) }
{
    let digits = number.to_string(alloc)?;
    let mut text = Vec::new(alloc);
    text.push(b'c')?;
    text.extend_from_slice(digits.as_bytes())?;
    Word::new(alloc, text.as_slice())
}

// Columns of these types, numbered from 1.
fn named_columns(alloc: Global, types: &[ColType]) -> Result<Vec<Column>, OutOfMemory>
    ensures { IfOk result (λ columns. columns.items ≡ named_columns 1 types.now) }
{
    let mut columns = Vec::new(alloc);
    for (at, kind) in types.iter().enumerate() {
        let name = column_name(alloc, at + 1)?;
        columns.push(Column { name, kind: *kind })?;
    }
    Ok(columns)
}

// Moves rows from the end of a list to the end of another, until none is left.
fn turned(alloc: Global, rows: Items<Tuple>) -> Result<Vec<Tuple>, OutOfMemory>
    ensures { IfOk result (λ out. reverse out.items ≡ rows) }
{
    let mut rows = rows;
    let mut out = Vec::new(alloc);
    for _ in 0..rows.len() {
        if let Some(row) = rows.pop() {
            out.push(row)?;
        }
    }
    Ok(out)
}

/// The table of these types and rows, which fit: it is named `q`, and its columns `c1`, `c2`, and so on.
pub(crate) fn result_table(
    alloc: Global,
    types: &[ColType],
    rows: Items<Tuple>,
) -> Result<Table, OutOfMemory>
    requires { rows_fit types.now rows ≡ true }
    ensures { IfOk result (λ table. table ≡ result_table types.now rows) }
{
    let columns = named_columns(alloc, types)?;
    let name = Word::new(alloc, b"q")?;
    let mut tuples = turned(alloc, rows)?;
    tuples.reverse();
    Ok(Table::with_rows(name, columns, tuples))
}

// What evaluation gives for these rows, none of which there are where a sum leaves 64 bits.
pub(crate) fn evaluated(
    alloc: Global,
    types: &[ColType],
    rows: Option<Items<Tuple>>,
) -> Result<Eval, OutOfMemory>
    requires { rows_fit types.now (unwrap_or rows []) ≡ true }
    ensures { IfOk result (λ eval. eval ≡ evaluated types.now rows) }
{
    match rows {
        Some(rows) => Ok(Eval::Rows(result_table(alloc, types, rows)?)),
        None => Ok(Eval::Past64),
    }
}
