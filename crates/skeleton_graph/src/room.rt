ghost use Rattle.std.specs.Prelude.{◌≡◌, ◌+◌, ◌<◌, ◌≤◌, MatchResult};
ghost use Rattle.skeleton_graph.specs.declared.fault.ListFault.TheVariants.{TooMany};

use crate::fault::ListFault;

/// Tells whether there is room for one more than so many.
pub fn room_for_more(room: usize, count: usize) -> Result<(), ListFault>
    ensures { MatchResult result (λ _. count < room) (λ fault. (fault ≡ TooMany) × (room ≤ count)) }
{
    if count < room {
        Ok(())
    } else {
        Err(ListFault::TooMany)
    }
}

/// The room that so many leave.
pub fn room_after(room: usize, count: usize) -> Result<usize, ListFault>
    ensures { MatchResult result (λ left. left + count ≡ room) (λ fault. (fault ≡ TooMany) × (room < count)) }
{
    match room.checked_sub(count) {
        Some(left) => Ok(left),
        None => Err(ListFault::TooMany),
    }
}
