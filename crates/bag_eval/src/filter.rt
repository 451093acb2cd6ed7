ghost use Rattle.std.specs.Prelude.{◌≡◌, ◌∷◌, ◌++◌, [], IfOk, OnOk, filter};
ghost use Rattle.predicate_core.specs.Truth.{keeps};
ghost use Rattle.query_core.specs.Standard.{keeps_all};

use predicate_core::{Pred, keeps};
use sqlite_items::Items;
use std::alloc::Global;
use table_core::Tuple;
use value_core::{OutOfMemory, Value};

// Appends a copy of a row, if the predicate keeps it.
fn push_kept(
    alloc: Global,
    out: &mut Items<Tuple>,
    constants: &[Value],
    row: &Tuple,
    pred: &Pred,
) -> Result<(), OutOfMemory>
    ensures { OnOk result (out.new ≡ out.old ++ filter (keeps constants.now pred.now) (row.now ∷ [])) }
{
    if keeps(pred, row.cells(), constants) {
        out.push(row.copy(alloc)?)?;
    }
    Ok(())
}

/// The rows that a predicate keeps, in order.
pub fn keep_rows(
    alloc: Global,
    constants: &[Value],
    rows: &[Tuple],
    pred: &Pred,
) -> Result<Items<Tuple>, OutOfMemory>
    ensures { IfOk result (λ kept. kept ≡ filter (keeps constants.now pred.now) rows.now) }
{
    let mut kept = Items::new(alloc);
    for row in rows {
        push_kept(alloc, &mut kept, constants, row, pred)?;
    }
    Ok(kept)
}

/// Whether a predicate keeps all of some rows.
pub fn keeps_all_rows(constants: &[Value], rows: &[Tuple], pred: &Pred) -> bool
    ensures { result ≡ keeps_all constants.now rows.now pred.now }
{
    rows.iter().all(|row| keeps(pred, row.cells(), constants))
}
