ghost use Rattle.std.specs.Prelude.{◌≡◌, ◌∷◌, ◌++◌, [], OnOk, IfOk, codes, map};
ghost use Rattle.sql_print.specs.Sql.{text_at, agg_text, group_by, group_text, group_source};

use crate::derived_source::{enclosed, push_all_columns};
use crate::part::Printed;
use crate::predicate::text_at;
use crate::push::{push_between, push_bytes};
use query_core::Agg;
use sqlite_items::Items;
use std::alloc::Global;
use value_core::{Bytes, OutOfMemory, held};

// Appends an aggregate, which begins with these words, over a column of these texts.
fn push_over(
    out: &mut Vec<u8>,
    words: &[u8],
    columns: &[Bytes],
    column: usize,
) -> Result<(), OutOfMemory>
    ensures { OnOk result (out.new.items ≡ out.old.items ++ (words.now ++ text_at columns.now column ++ codes ")")) }
{
    push_bytes(out, words)?;
    push_bytes(out, text_at(columns, column))?;
    push_bytes(out, b")")
}

// Appends an aggregate over columns of these texts.
fn push_agg(out: &mut Vec<u8>, columns: &[Bytes], agg: &Agg) -> Result<(), OutOfMemory>
    ensures { OnOk result (out.new.items ≡ out.old.items ++ agg_text columns.now agg.now) }
{
    match *agg {
        Agg::CountAll => push_bytes(out, b"COUNT(*)"),
        Agg::Count(column) => push_over(out, b"COUNT(", columns, column),
        Agg::CountDistinct(column) => push_over(out, b"COUNT(DISTINCT ", columns, column),
        Agg::Sum(column) => push_over(out, b"SUM(", columns, column),
        Agg::Min(column) => push_over(out, b"MIN(", columns, column),
        Agg::Max(column) => push_over(out, b"MAX(", columns, column),
    }
}

// The text of an aggregate over columns of these texts.
fn agg_text(alloc: Global, columns: &[Bytes], agg: &Agg) -> Result<Bytes, OutOfMemory>
    ensures { IfOk result (λ text. text ≡ agg_text columns.now agg.now) }
{
    let mut out = Vec::new(alloc);
    push_agg(&mut out, columns, agg)?;
    Ok(Bytes::from_vec(out))
}

// The texts of the key columns.
fn key_texts(alloc: Global, columns: &[Bytes], keys: &[usize]) -> Result<Items<Bytes>, OutOfMemory>
    ensures { IfOk result (λ texts. texts ≡ map (text_at columns.now) keys.now) }
{
    let mut texts = Items::new(alloc);
    for key in keys {
        texts.push(Bytes::of(alloc, text_at(columns, *key))?)?;
    }
    Ok(texts)
}

// Appends `GROUP BY` and these texts, nothing where there are none.
fn push_group_by(out: &mut Vec<u8>, texts: &[Bytes]) -> Result<(), OutOfMemory>
    ensures { OnOk result (out.new.items ≡ out.old.items ++ group_by texts.now) }
{
    match texts {
        [] => Ok(()),
        [_, ..] => {
            push_bytes(out, b" GROUP BY ")?;
            push_between(out, b", ", texts)
        }
    }
}

// The texts that a group selects: the key columns, and the aggregate.
fn selected_texts(
    alloc: Global,
    columns: &[Bytes],
    keys: &[usize],
    agg: &Agg,
) -> Result<Items<Bytes>, OutOfMemory>
    ensures { IfOk result (λ texts. texts ≡ map (text_at columns.now) keys.now ++ agg_text columns.now agg.now ∷ []) }
{
    let mut texts = key_texts(alloc, columns, keys)?;
    texts.push(agg_text(alloc, columns, agg)?)?;
    Ok(texts)
}

// Appends the groups of a part after `FROM`.
fn push_group(
    alloc: Global,
    out: &mut Vec<u8>,
    part: &Printed,
    keys: &[usize],
    agg: &Agg,
) -> Result<(), OutOfMemory>
    ensures { OnOk result (out.new.items ≡ out.old.items ++ group_text part.now keys.now agg.now) }
{
    let columns = part.columns.as_slice();
    let selected = selected_texts(alloc, columns, keys, agg)?;
    let by = key_texts(alloc, columns, keys)?;
    push_bytes(out, b"SELECT ")?;
    push_all_columns(alloc, out, selected.as_slice())?;
    push_bytes(out, b" ")?;
    push_bytes(out, part.text.as_slice())?;
    push_group_by(out, by.as_slice())
}

// The groups of a part after `FROM`, as a derived source.
pub fn group_source(
    alloc: Global,
    keys: &[usize],
    agg: &Agg,
    part: &Printed,
) -> Result<Printed, OutOfMemory>
    ensures { IfOk result (λ source. source ≡ group_source keys.now agg.now part.now) }
{
    let mut out = Vec::new(alloc);
    push_group(alloc, &mut out, part, keys, agg)?;
    let width = held(keys.len().checked_add(1))?;
    enclosed(alloc, out.as_slice(), width, part.next)
}
