ghost use Rattle.std.specs.Prelude.{◌≡◌};
ghost use Rattle.map_walk.specs.Open.{some_has, serves, some_serves, is_open_by};

use crate::candidate::{Candidate, has_at};
use query_core::same_type;
use table_core::{Table, Tuple};
use value_core::{ColType, Value};

/// Whether some candidate may have at a place the value that a row has at another.
pub(crate) fn some_has<C: Candidate>(
    candidates: &[C],
    at: usize,
    row: &[Value],
    place: usize,
) -> bool
    ensures { result ≡ some_has C.has candidates.now at row.now place }
{
    candidates
        .iter()
        .any(|candidate| has_at(candidate, at, row, place))
}

/// Whether a body column may have all values of the output column at a place.
pub(crate) fn serves<C: Candidate>(
    candidates: &[C],
    output: &[Tuple],
    place: usize,
    at: usize,
) -> bool
    ensures { result ≡ serves C.has candidates.now output.now place at }
{
    output
        .iter()
        .all(|row| some_has(candidates, at, row.cells(), place))
}

// Whether some body column of a type may have all values of the output column at a place.
fn some_serves<C: Candidate>(
    types: &[ColType],
    candidates: &[C],
    output: &[Tuple],
    place: usize,
    kind: ColType,
) -> bool
    ensures { result ≡ some_serves C.has types.now candidates.now output.now place kind }
{
    for at in 0..types.len() {
        if same_type(kind, types[at]) && serves(candidates, output, place, at) {
            return true;
        }
    }
    false
}

/// Whether each column of an output has a body column of its type that may have all of its values. Where not, no map gives each row
/// of the output a candidate. It takes no memory.
pub fn is_open<C: Candidate>(types: &[ColType], candidates: &[C], output: &Table) -> bool
    ensures { result ≡ is_open_by C.has types.now candidates.now output.now }
{
    let columns = output.columns();
    for place in 0..columns.len() {
        let kind = columns[place].kind;
        if !some_serves(types, candidates, output.tuples(), place, kind) {
            return false;
        }
    }
    true
}
