ghost use Rattle.std.specs.Prelude.{◌≡◌};
ghost use Rattle.map_walk.specs.Wholes.{has_some, has_no_others, whole_supply};

use crate::candidate::{Candidate, has_at};
use crate::open::serves;
use crate::supply::Supply;
use table_core::Tuple;

// Whether a candidate has at a place a value of the output column at another.
fn has_some<C: Candidate>(candidate: &C, output: &[Tuple], place: usize, at: usize) -> bool
    ensures { result ≡ has_some C.has output.now place at candidate.now }
{
    output
        .iter()
        .any(|row| has_at(candidate, at, row.cells(), place))
}

// Whether a body column has no other values than the output column at a place.
fn has_no_others<C: Candidate>(candidates: &[C], output: &[Tuple], place: usize, at: usize) -> bool
    ensures { result ≡ has_no_others C.has candidates.now output.now place at }
{
    candidates
        .iter()
        .all(|candidate| has_some(candidate, output, place, at))
}

/// How much a body column has of the output column at a place, short where it has other values.
pub(crate) fn whole_supply<C: Candidate>(
    candidates: &[C],
    output: &[Tuple],
    place: usize,
    at: usize,
) -> Supply
    ensures { result ≡ whole_supply C.has candidates.now output.now place at }
{
    if serves(candidates, output, place, at) && has_no_others(candidates, output, place, at) {
        Supply::Full
    } else {
        Supply::Short
    }
}
