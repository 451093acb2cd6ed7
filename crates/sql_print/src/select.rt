ghost use Rattle.std.specs.Prelude.{◌≡◌, ◌++◌, [], OnOk, IfOk, codes, map, if◌then◌else◌};
ghost use Rattle.std.specs.List.{zip};
ghost use Rattle.query_core.specs.View.{tree, select};
ghost use Rattle.sql_print.specs.Sql.{named, selected, select_list, from, sql};

use crate::part::Printed;
use crate::predicate::text_at;
use crate::push::{push_between, push_bytes, push_name};
use crate::tree::from;
use query_core::Query;
use sqlite_items::Items;
use std::alloc::Global;
use table_core::{Column, Task, TaskParts};
use value_core::{Bytes, OutOfMemory};

// A picked column under an output column's name.
fn selected(
    alloc: Global,
    columns: &[Bytes],
    pick: usize,
    column: &Column,
) -> Result<Bytes, OutOfMemory>
    ensures { IfOk result (λ text. text ≡ selected columns.now (pick, column.now)) }
{
    let mut out = Vec::new(alloc);
    push_bytes(&mut out, text_at(columns, pick))?;
    push_bytes(&mut out, b" AS ")?;
    push_name(&mut out, column.name.as_slice())?;
    Ok(Bytes::from_vec(out))
}

// Each picked column under its output column's name.
fn all_selected(
    alloc: Global,
    columns: &[Bytes],
    picks: &[usize],
    output: &[Column],
) -> Result<Items<Bytes>, OutOfMemory>
    ensures { IfOk result (λ texts. texts ≡ map (selected columns.now) (zip picks.now output.now)) }
{
    let mut texts = Items::new(alloc);
    for (pick, column) in picks.iter().zip(output) {
        texts.push(selected(alloc, columns, *pick, column)?)?;
    }
    Ok(texts)
}

// Appends the select list of a query.
fn push_select_list(
    alloc: Global,
    out: &mut Vec<u8>,
    columns: &[Bytes],
    picks: &[usize],
    output: &[Column],
) -> Result<(), OutOfMemory>
    ensures { OnOk result (out.new.items ≡ out.old.items ++ select_list columns.now picks.now output.now) }
{
    let texts = all_selected(alloc, columns, picks, output)?;
    push_between(out, b", ", texts.as_slice())
}

// Appends `DISTINCT` where duplicates are removed.
fn push_distinct(out: &mut Vec<u8>, distinct: bool) -> Result<(), OutOfMemory>
    ensures { OnOk result (out.new.items ≡ out.old.items ++ (if distinct then codes "DISTINCT " else [])) }
{
    if distinct {
        push_bytes(out, b"DISTINCT ")
    } else {
        Ok(())
    }
}

// Appends the SQL text of a query.
pub fn push_sql(
    alloc: Global,
    out: &mut Vec<u8>,
    task: &TaskParts,
    query: &Query,
) -> Result<(), OutOfMemory>
    ensures { OnOk result (out.new.items ≡ out.old.items ++ sql task.now (select query.now)) }
{
    let body = from(alloc, task, &query.body, 1)?;
    push_bytes(out, b"SELECT ")?;
    push_distinct(out, query.distinct)?;
    push_select_list(
        alloc,
        out,
        body.columns.as_slice(),
        query.map.as_slice(),
        task.output.columns(),
    )?;
    push_bytes(out, b" ")?;
    push_bytes(out, body.text.as_slice())
}

/// The SQL text of a query.
pub fn sql(alloc: Global, task: &Task, query: &Query) -> Result<Vec<u8>, OutOfMemory>
    ensures { IfOk result (λ text. text.items ≡ sql task.now (select query.now)) }
{
    let mut out = Vec::new(alloc);
    push_sql(alloc, &mut out, task.parts(), query)?;
    Ok(out)
}
