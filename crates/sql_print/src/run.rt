ghost use Rattle.std.specs.Prelude.{◌≡◌, ◌++◌, ◌==◌, OnOk, IfOk, codes, map, flat_map, take, if◌then◌else◌};
ghost use Rattle.std.specs.List.{enumerate_from};
ghost use Rattle.rank_core.specs.View.{ranked_query};
ghost use Rattle.sql_print.specs.Text.{count_line, answer_line, text_of};

use crate::push::{push_bytes, push_number};
use crate::select::push_sql;
use rank_core::Ranked;
use std::alloc::Global;
use table_core::{Task, TaskParts};
use value_core::OutOfMemory;

// The word after the number of queries.
fn counted(count: usize) -> &'static [u8]
    ensures { result.now ≡ (if count == 1 then codes " query" else codes " queries") }
{
    if count == 1 { b" query" } else { b" queries" }
}

// Appends the line with the number of answers.
fn push_count_line(alloc: Global, out: &mut Vec<u8>, count: usize) -> Result<(), OutOfMemory>
    ensures { OnOk result (out.new.items ≡ out.old.items ++ count_line count) }
{
    push_number(alloc, out, count as u64)?;
    push_bytes(out, counted(count))?;
    push_bytes(out, b"\n")
}

// Appends the line of an answer with its number.
fn push_answer_line(
    alloc: Global,
    out: &mut Vec<u8>,
    task: &TaskParts,
    number: u64,
    answer: &Ranked,
) -> Result<(), OutOfMemory>
    ensures { OnOk result (out.new.items ≡ out.old.items ++ answer_line task.now (number, ranked_query answer.now)) }
{
    push_number(alloc, out, number)?;
    push_bytes(out, b": ")?;
    push_sql(alloc, out, task, &answer.query)?;
    push_bytes(out, b"\n")
}

// Appends the lines of these answers, numbered from 1.
fn push_answer_lines(
    alloc: Global,
    out: &mut Vec<u8>,
    task: &TaskParts,
    list: &[Ranked],
) -> Result<(), OutOfMemory>
    ensures { OnOk result (out.new.items ≡ out.old.items ++ flat_map (answer_line task.now) (enumerate_from 1 (map ranked_query list.now))) }
{
    for (at, answer) in list.iter().enumerate() {
        push_answer_line(alloc, out, task, at as u64 + 1, answer)?;
    }
    Ok(())
}

// The first answers of a list, all where there are no more than so many.
fn first(list: &[Ranked], count: usize) -> &[Ranked]
    ensures { map ranked_query result.now ≡ take count (map ranked_query list.now) }
{
    if list.len() <= count {
        list
    } else {
        &list[..count]
    }
}

/// The text of a run: the number of answers, then the first of them.
pub fn text(alloc: Global, task: &Task, list: &[Ranked]) -> Result<Vec<u8>, OutOfMemory>
    ensures { IfOk result (λ text. text.items ≡ text_of task.now (map ranked_query list.now)) }
{
    let parts = task.parts();
    let mut out = Vec::new(alloc);
    push_count_line(alloc, &mut out, list.len())?;
    push_answer_lines(alloc, &mut out, parts, first(list, parts.show as usize))?;
    Ok(out)
}
