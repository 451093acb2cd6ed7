ghost use Rattle.std.specs.Prelude.{◌≡◌, ◌∷◌, ◌++◌, [], IfOk, OnOk, if◌then◌else◌};
ghost use Rattle.query_core.specs.Grammar.{places_of};

use query_core::same_type;
use sqlite_items::Items;
use std::alloc::Global;
use value_core::{ColType, OutOfMemory};

// Appends a place, if it is one to keep.
fn push_place(places: &mut Items<usize>, at: usize, kept: bool) -> Result<(), OutOfMemory>
    ensures { OnOk result (places.new ≡ places.old ++ (if kept then at ∷ [] else [])) }
{
    if kept {
        places.push(at)?;
    }
    Ok(())
}

/// The places of the columns of a type.
pub(crate) fn places_of(
    alloc: Global,
    t: ColType,
    types: &[ColType],
) -> Result<Items<usize>, OutOfMemory>
    ensures { IfOk result (λ places. places ≡ places_of t 0 types.now) }
{
    let mut places = Items::new(alloc);
    for at in 0..types.len() {
        push_place(&mut places, at, same_type(t, types[at]))?;
    }
    Ok(places)
}
