ghost use Rattle.std.specs.Prelude.{◌≡◌, IfOk};
ghost use Rattle.bit_classes.specs.Walk.{if_passing, sifted};

use crate::join::Join;
use crate::sieve::Sieve;
use bit_rows::BitRow;
use std::alloc::Global;
use value_core::OutOfMemory;

// A copy of a row that there may be, where it may be wanted.
fn copy_wanted<S: Sieve>(
    alloc: Global,
    sieve: &S,
    join: Join,
    row: &Option<BitRow>,
) -> Result<Option<BitRow>, OutOfMemory>
    ensures { IfOk result (λ copy. copy ≡ if_passing (S.may sieve.now join) row.now) }
{
    let Some(row) = row else {
        return Ok(None);
    };
    if sieve.may(join, row) {
        return Ok(Some(row.copy(alloc)?));
    }
    Ok(None)
}

/// Copies of those rows that may be wanted under a join.
pub fn sift_rows<S: Sieve>(
    alloc: Global,
    sieve: &S,
    join: Join,
    rows: &[Option<BitRow>],
) -> Result<Vec<Option<BitRow>>, OutOfMemory>
    ensures { IfOk result (λ copies. copies.items ≡ sifted (S.may sieve.now join) rows.now) }
{
    let mut copies = Vec::new(alloc);
    for row in rows {
        copies.push(copy_wanted(alloc, sieve, join, row)?)?;
    }
    Ok(copies)
}
