ghost use Rattle.std.specs.Prelude.{◌≡◌, ◌++◌, IfOk};

use crate::fault::OutOfMemory;
use sqlite_items::Items;
use std::alloc::Global;

/// A copy of these elements.
pub fn copied<T: Copy>(alloc: Global, items: &[T]) -> Result<Items<T>, OutOfMemory>
    ensures { IfOk result (λ out. out ≡ items.now) }
{
    Ok(Items::from_slice(alloc, items)?)
}

/// The elements of two slices, one after the other.
pub fn concatenated<T: Copy + Drop>(
    alloc: Global,
    a: &[T],
    b: &[T],
) -> Result<Items<T>, OutOfMemory>
    ensures { IfOk result (λ out. out ≡ a.now ++ b.now) }
{
    let mut out = copied(alloc, a)?;
    out.append(copied(alloc, b)?)?;
    Ok(out)
}
