ghost use Rattle.std.specs.Prelude.{◌≡◌, ◌++◌, List, IfOk, OnOk};
ghost use Rattle.table_core.specs.Rows.{Row};
ghost use Rattle.query_core.specs.Firsts.{firsts, united};

use crate::select::push_first;
use query_core::Uniting;
use sqlite_items::Items;
use std::alloc::Global;
use table_core::Tuple;
use value_core::OutOfMemory;

// Appends copies of these rows.
fn push_rows(alloc: Global, out: &mut Items<Tuple>, rows: &[Tuple]) -> Result<(), OutOfMemory>
    ensures { OnOk result (out.new ≡ out.old ++ rows.now) }
{
    for row in rows {
        out.push(row.copy(alloc)?)?;
    }
    Ok(())
}

// Copies of these rows.
pub(crate) fn copy_rows(alloc: Global, rows: &[Tuple]) -> Result<Items<Tuple>, OutOfMemory>
    ensures { IfOk result (λ out. out ≡ rows.now) }
{
    let mut out = Items::new(alloc);
    push_rows(alloc, &mut out, rows)?;
    Ok(out)
}

// The left rows, and then the right rows.
fn append_rows(
    alloc: Global,
    lefts: &[Tuple],
    rights: &[Tuple],
) -> Result<Items<Tuple>, OutOfMemory>
    ensures { IfOk result (λ out. out ≡ lefts.now ++ rights.now) }
{
    let mut out = Items::new(alloc);
    push_rows(alloc, &mut out, lefts)?;
    push_rows(alloc, &mut out, rights)?;
    Ok(out)
}

// Appends copies of those of these rows that aren't among the rows so far, each once.
#[tactic(auto, using(crate::proofs::FirstLaws::firsts_push))]
fn push_firsts(alloc: Global, out: &mut Items<Tuple>, rows: &[Tuple]) -> Result<(), OutOfMemory>
    ensures { OnOk result ((seen : List Row) → out.old ≡ firsts seen → out.new ≡ firsts (seen ++ rows.now)) }
{
    for row in rows {
        push_first(alloc, out, row)?;
    }
    Ok(())
}

// Each row of the left and the right rows once, at its first place.
fn union_firsts(
    alloc: Global,
    lefts: &[Tuple],
    rights: &[Tuple],
) -> Result<Items<Tuple>, OutOfMemory>
    ensures { IfOk result (λ out. out ≡ firsts (lefts.now ++ rights.now)) }
{
    let mut out = Items::new(alloc);
    push_firsts(alloc, &mut out, lefts)?;
    push_firsts(alloc, &mut out, rights)?;
    Ok(out)
}

/// The rows of two parts together: every copy, or each row once.
pub fn unite_rows(
    alloc: Global,
    kind: Uniting,
    lefts: &[Tuple],
    rights: &[Tuple],
) -> Result<Items<Tuple>, OutOfMemory>
    ensures { IfOk result (λ out. out ≡ united kind lefts.now rights.now) }
{
    match kind {
        Uniting::All => append_rows(alloc, lefts, rights),
        Uniting::Firsts => union_firsts(alloc, lefts, rights),
    }
}
