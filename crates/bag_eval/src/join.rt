ghost use Rattle.std.specs.Prelude.{◌≡◌, ◌∷◌, ◌++◌, [], IfOk, OnOk, filter};
ghost use Rattle.predicate_core.specs.Truth.{keeps};
ghost use Rattle.query_core.specs.Joins.{pairs_with, crossed, pairs_and_padded, crossed_and_padded, kept_pairs, joined, or_padded, left_joined};

use crate::cells::{padded, pair_of};
use predicate_core::{Pred, keeps};
use sqlite_items::Items;
use std::alloc::Global;
use table_core::Tuple;
use value_core::{OutOfMemory, Value};

// Appends a left row's pairs with each right row.
fn push_pairs(
    alloc: Global,
    out: &mut Items<Tuple>,
    left: &[Value],
    rights: &[Tuple],
) -> Result<(), OutOfMemory>
    ensures { OnOk result (out.new ≡ out.old ++ pairs_with rights.now left.now) }
{
    for right in rights {
        out.push(pair_of(alloc, left, right.cells())?)?;
    }
    Ok(())
}

/// Each left row with each right row, the first left row's pairs first.
pub fn cross_rows(
    alloc: Global,
    lefts: &[Tuple],
    rights: &[Tuple],
) -> Result<Items<Tuple>, OutOfMemory>
    ensures { IfOk result (λ out. out ≡ crossed lefts.now rights.now) }
{
    let mut out = Items::new(alloc);
    for left in lefts {
        push_pairs(alloc, &mut out, left.cells(), rights)?;
    }
    Ok(out)
}

/// Each left row with each right row, and behind a left row's pairs the row itself padded with so many NULLs.
pub fn cross_and_pad_rows(
    alloc: Global,
    width: usize,
    lefts: &[Tuple],
    rights: &[Tuple],
) -> Result<Items<Tuple>, OutOfMemory>
    ensures { IfOk result (λ out. out ≡ crossed_and_padded width lefts.now rights.now) }
{
    let mut out = Items::new(alloc);
    for left in lefts {
        push_pairs(alloc, &mut out, left.cells(), rights)?;
        out.push(padded(alloc, left.cells(), width)?)?;
    }
    Ok(out)
}

// Appends the pair of two rows, if the predicate keeps it.
fn push_kept_pair(
    alloc: Global,
    out: &mut Items<Tuple>,
    constants: &[Value],
    left: &[Value],
    right: &[Value],
    pred: &Pred,
) -> Result<(), OutOfMemory>
    ensures { OnOk result (out.new ≡ out.old ++ filter (keeps constants.now pred.now) ((left.now ++ right.now) ∷ [])) }
{
    let pair = pair_of(alloc, left, right)?;
    if keeps(pred, pair.cells(), constants) {
        out.push(pair)?;
    }
    Ok(())
}

// Appends those of a left row's pairs that the predicate keeps.
fn push_kept_pairs(
    alloc: Global,
    out: &mut Items<Tuple>,
    constants: &[Value],
    left: &[Value],
    rights: &[Tuple],
    pred: &Pred,
) -> Result<(), OutOfMemory>
    ensures { OnOk result (out.new ≡ out.old ++ kept_pairs constants.now pred.now rights.now left.now) }
{
    for right in rights {
        push_kept_pair(alloc, out, constants, left, right.cells(), pred)?;
    }
    Ok(())
}

/// The pairs of left and right rows that a predicate keeps.
pub fn join_pairs(
    alloc: Global,
    constants: &[Value],
    lefts: &[Tuple],
    rights: &[Tuple],
    pred: &Pred,
) -> Result<Items<Tuple>, OutOfMemory>
    ensures { IfOk result (λ out. out ≡ joined constants.now pred.now lefts.now rights.now) }
{
    let mut out = Items::new(alloc);
    for left in lefts {
        push_kept_pairs(alloc, &mut out, constants, left.cells(), rights, pred)?;
    }
    Ok(out)
}

// Appends a left row's kept pairs, or, where it has none, the row padded with NULLs.
fn push_left(
    alloc: Global,
    out: &mut Items<Tuple>,
    constants: &[Value],
    width: usize,
    left: &[Value],
    rights: &[Tuple],
    pred: &Pred,
) -> Result<(), OutOfMemory>
    ensures { OnOk result (out.new ≡ out.old ++ or_padded width left.now (kept_pairs constants.now pred.now rights.now left.now)) }
{
    let mut pairs = Items::new(alloc);
    push_kept_pairs(alloc, &mut pairs, constants, left, rights, pred)?;
    if pairs.is_empty() {
        out.push(padded(alloc, left, width)?)?;
    } else {
        out.append(pairs)?;
    }
    Ok(())
}

/// Each left row's pairs that a predicate keeps, or, where it has none, the row padded with NULLs for so many right columns.
pub fn left_join_pairs(
    alloc: Global,
    constants: &[Value],
    width: usize,
    lefts: &[Tuple],
    rights: &[Tuple],
    pred: &Pred,
) -> Result<Items<Tuple>, OutOfMemory>
    ensures { IfOk result (λ out. out ≡ left_joined constants.now pred.now width lefts.now rights.now) }
{
    let mut out = Items::new(alloc);
    for left in lefts {
        push_left(
            alloc,
            &mut out,
            constants,
            width,
            left.cells(),
            rights,
            pred,
        )?;
    }
    Ok(out)
}
