ghost use Rattle.std.specs.Prelude.{◌≡◌, ◌++◌, OnOk, IfOk, map, length};
ghost use Rattle.std.specs.List.{range_with_len};
ghost use Rattle.sql_print.specs.Sql.{renamed, all_columns, derived_column, enclosed, arm, derived, where_placed, union_source};

use crate::part::{Place, Printed, after, push_alias, push_column_name};
use crate::predicate::text_at;
use crate::push::{push_between, push_bytes};
use sqlite_items::Items;
use std::alloc::Global;
use value_core::{Bytes, OutOfMemory};

// A column under the name that it has in a derived source.
fn renamed(alloc: Global, columns: &[Bytes], at: usize) -> Result<Bytes, OutOfMemory>
    ensures { IfOk result (λ text. text ≡ renamed columns.now at) }
{
    let mut out = Vec::new(alloc);
    push_bytes(&mut out, text_at(columns, at))?;
    push_bytes(&mut out, b" AS ")?;
    push_column_name(alloc, &mut out, at)?;
    Ok(Bytes::from_vec(out))
}

// Each column under the name that it has in a derived source.
fn all_renamed(alloc: Global, columns: &[Bytes]) -> Result<Items<Bytes>, OutOfMemory>
    ensures { IfOk result (λ texts. texts ≡ map (renamed columns.now) (range_with_len 0 (length columns.now))) }
{
    let mut texts = Items::new(alloc);
    for at in 0..columns.len() {
        texts.push(renamed(alloc, columns, at)?)?;
    }
    Ok(texts)
}

// The text by which a column of a derived source is named.
fn derived_column(alloc: Global, number: u64, at: usize) -> Result<Bytes, OutOfMemory>
    ensures { IfOk result (λ text. text ≡ derived_column number at) }
{
    let mut out = Vec::new(alloc);
    push_alias(alloc, &mut out, number)?;
    push_bytes(&mut out, b".")?;
    push_column_name(alloc, &mut out, at)?;
    Ok(Bytes::from_vec(out))
}

// The texts by which the columns of a derived source are named.
fn derived_columns(alloc: Global, number: u64, count: usize) -> Result<Items<Bytes>, OutOfMemory>
    ensures { IfOk result (λ texts. texts ≡ map (derived_column number) (range_with_len 0 count)) }
{
    let mut texts = Items::new(alloc);
    for at in 0..count {
        texts.push(derived_column(alloc, number, at)?)?;
    }
    Ok(texts)
}

// Appends the columns of a part as a select list.
pub fn push_all_columns(
    alloc: Global,
    out: &mut Vec<u8>,
    columns: &[Bytes],
) -> Result<(), OutOfMemory>
    ensures { OnOk result (out.new.items ≡ out.old.items ++ all_columns columns.now) }
{
    let texts = all_renamed(alloc, columns)?;
    push_between(out, b", ", texts.as_slice())
}

// A text in parentheses as a derived source of so many columns, under this alias number.
pub fn enclosed(
    alloc: Global,
    text: &[u8],
    width: usize,
    number: u64,
) -> Result<Printed, OutOfMemory>
    ensures { IfOk result (λ source. source ≡ enclosed text.now width number) }
{
    let mut out = Vec::new(alloc);
    push_bytes(&mut out, b"(")?;
    push_bytes(&mut out, text)?;
    push_bytes(&mut out, b") AS ")?;
    push_alias(alloc, &mut out, number)?;
    Ok(Printed {
        text: Bytes::from_vec(out),
        columns: derived_columns(alloc, number, width)?,
        next: after(number)?,
    })
}

// Appends a part after `FROM`, selected whole.
pub fn push_arm(alloc: Global, out: &mut Vec<u8>, part: &Printed) -> Result<(), OutOfMemory>
    ensures { OnOk result (out.new.items ≡ out.old.items ++ arm part.now) }
{
    push_bytes(out, b"SELECT ")?;
    push_all_columns(alloc, out, part.columns.as_slice())?;
    push_bytes(out, b" ")?;
    push_bytes(out, part.text.as_slice())
}

// A part after `FROM`, made a derived source under the next alias.
fn derived(alloc: Global, part: &Printed) -> Result<Printed, OutOfMemory>
    ensures { IfOk result (λ source. source ≡ derived part.now) }
{
    let mut out = Vec::new(alloc);
    push_arm(alloc, &mut out, part)?;
    enclosed(alloc, out.as_slice(), part.columns.len(), part.next)
}

// A part with `WHERE` where it stands.
pub fn where_placed(alloc: Global, place: Place, part: Printed) -> Result<Printed, OutOfMemory>
    ensures { IfOk result (λ source. source ≡ where_placed place part) }
{
    match place {
        Place::Among => derived(alloc, &part),
        Place::AfterFrom => Ok(part),
    }
}

// Two parts, selected whole and joined by these words, as a derived source.
pub fn union_source(
    alloc: Global,
    words: &[u8],
    left: &Printed,
    right: &Printed,
) -> Result<Printed, OutOfMemory>
    ensures { IfOk result (λ source. source ≡ union_source words.now left.now right.now) }
{
    let mut out = Vec::new(alloc);
    push_arm(alloc, &mut out, left)?;
    push_bytes(&mut out, words)?;
    push_arm(alloc, &mut out, right)?;
    enclosed(alloc, out.as_slice(), left.columns.len(), right.next)
}
