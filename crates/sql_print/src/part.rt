ghost use Rattle.std.specs.Prelude.{◌≡◌, ◌++◌, ◌+◌, OnOk, IfOk};
ghost use Rattle.sql_print.specs.Sql.{alias, column_name, from_source, from_where, placed};

use crate::predicate::push_pred;
use crate::push::{push_bytes, push_number};
use predicate_core::Pred;
use sqlite_items::Items;
use std::alloc::Global;
use std::marker::Model;
use value_core::{Bytes, OutOfMemory, Value, held};

/// Where a part stands: among sources, or alone after `FROM`.
#[derive(Clone, Copy, Debug, PartialEq, Eq)]
pub enum Place {
    Among,
    AfterFrom,
}

/// A printed part: its text, the texts by which its columns are named, and the number of the next alias.
#[derive(Debug, Drop)]
pub struct Printed {
    pub text: Bytes,
    pub columns: Items<Bytes>,
    pub next: u64,
}

impl Model for Printed {
    ghost use Rattle.sql_print.specs.Sql.{Part};

    ghost Value = { Part };

    ghost view = { λ p. record { text = p.text; columns = p.columns; next = p.next } };
}

// The number after this one.
pub fn after(number: u64) -> Result<u64, OutOfMemory>
    ensures { IfOk result (λ next. next ≡ number + 1) }
{
    held(number.checked_add(1))
}

// Appends the alias of this number.
pub fn push_alias(alloc: Global, out: &mut Vec<u8>, number: u64) -> Result<(), OutOfMemory>
    ensures { OnOk result (out.new.items ≡ out.old.items ++ alias number) }
{
    push_bytes(out, b"s")?;
    push_number(alloc, out, number)
}

// Appends the name of a column of a derived source.
pub fn push_column_name(alloc: Global, out: &mut Vec<u8>, at: usize) -> Result<(), OutOfMemory>
    ensures { OnOk result (out.new.items ≡ out.old.items ++ column_name at) }
{
    push_bytes(out, b"c")?;
    push_number(alloc, out, after(at as u64)?)
}

// A source after `FROM`.
pub fn from_source(alloc: Global, source: Printed) -> Result<Printed, OutOfMemory>
    ensures { IfOk result (λ part. part ≡ from_source source) }
{
    let mut out = Vec::new(alloc);
    push_bytes(&mut out, b"FROM ")?;
    push_bytes(&mut out, source.text.as_slice())?;
    Ok(Printed {
        text: Bytes::from_vec(out),
        columns: source.columns,
        next: source.next,
    })
}

// A source after `FROM`, with a predicate over its columns after `WHERE`.
pub fn from_where(
    alloc: Global,
    constants: &[Value],
    source: Printed,
    pred: &Pred,
) -> Result<Printed, OutOfMemory>
    ensures { IfOk result (λ part. part ≡ from_where constants.now source pred.now) }
{
    let mut out = Vec::new(alloc);
    push_bytes(&mut out, b"FROM ")?;
    push_bytes(&mut out, source.text.as_slice())?;
    push_bytes(&mut out, b" WHERE ")?;
    push_pred(alloc, &mut out, constants, source.columns.as_slice(), pred)?;
    Ok(Printed {
        text: Bytes::from_vec(out),
        columns: source.columns,
        next: source.next,
    })
}

// A source where it stands.
pub fn placed(alloc: Global, place: Place, source: Printed) -> Result<Printed, OutOfMemory>
    ensures { IfOk result (λ part. part ≡ placed place source) }
{
    match place {
        Place::Among => Ok(source),
        Place::AfterFrom => from_source(alloc, source),
    }
}
