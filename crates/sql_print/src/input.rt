ghost use Rattle.std.specs.Prelude.{◌≡◌, IfOk, map};
ghost use Rattle.query_core.specs.Meaning.{input_at};
ghost use Rattle.sql_print.specs.Sql.{input_column, input_source};

use crate::part::{Printed, after, push_alias};
use crate::push::{push_bytes, push_name};
use sqlite_items::Items;
use std::alloc::Global;
use table_core::{Column, TaskParts};
use value_core::{Bytes, OutOfMemory};

// The name of an input, empty where there is no input of this number.
fn input_name(task: &TaskParts, table: u32) -> &[u8]
    ensures { result.now ≡ (input_at task.now.inputs table).name }
{
    match task.inputs.get(table as usize) {
        Some(input) => input.name().as_slice(),
        None => &[],
    }
}

// The columns of an input, none where there is no input of this number.
fn input_columns(task: &TaskParts, table: u32) -> &[Column]
    ensures { result.now ≡ (input_at task.now.inputs table).columns }
{
    match task.inputs.get(table as usize) {
        Some(input) => input.columns(),
        None => &[],
    }
}

// The text by which a column of an input is named.
fn input_column(alloc: Global, number: u64, column: &Column) -> Result<Bytes, OutOfMemory>
    ensures { IfOk result (λ text. text ≡ input_column number column.now) }
{
    let mut out = Vec::new(alloc);
    push_alias(alloc, &mut out, number)?;
    push_bytes(&mut out, b".")?;
    push_name(&mut out, column.name.as_slice())?;
    Ok(Bytes::from_vec(out))
}

// The texts by which these columns of an input are named.
fn input_texts(alloc: Global, number: u64, columns: &[Column]) -> Result<Items<Bytes>, OutOfMemory>
    ensures { IfOk result (λ texts. texts ≡ map (input_column number) columns.now) }
{
    let mut texts = Items::new(alloc);
    for column in columns {
        texts.push(input_column(alloc, number, column)?)?;
    }
    Ok(texts)
}

// An input as a source with this alias number.
pub fn input_source(
    alloc: Global,
    task: &TaskParts,
    table: u32,
    number: u64,
) -> Result<Printed, OutOfMemory>
    ensures { IfOk result (λ part. part ≡ input_source task.now table number) }
{
    let mut out = Vec::new(alloc);
    push_name(&mut out, input_name(task, table))?;
    push_bytes(&mut out, b" AS ")?;
    push_alias(alloc, &mut out, number)?;
    Ok(Printed {
        text: Bytes::from_vec(out),
        columns: input_texts(alloc, number, input_columns(task, table))?,
        next: after(number)?,
    })
}
