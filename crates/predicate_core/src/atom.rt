ghost use Rattle.std.specs.Prelude.{◌≡◌};
ghost use Rattle.predicate_core.specs.Truth.{value_at, truth_of, atom_truth};
ghost use Rattle.value_core.specs.Value.{compare, is_null};

use value_core::{CmpOp, Truth, Value, compare};

/// A single condition on a row: two columns compared, a column compared with a constant, or a test for NULL.
///
/// Columns and constants are numbered from 0.
#[derive(Clone, Copy, Debug, PartialEq, Eq)]
pub enum Atom {
    Cols(usize, CmpOp, usize),
    Const(usize, CmpOp, usize),
    IsNull(usize),
    NotNull(usize),
}

// The comparison of the values at two places.
fn compared(op: CmpOp, left: &[Value], i: usize, right: &[Value], j: usize) -> Truth
    ensures { result ≡ compare op (value_at left.now i) (value_at right.now j) }
{
    match (left.get(i), right.get(j)) {
        (Some(a), Some(b)) => compare(op, a, b),
        _ => Truth::Unknown,
    }
}

// Whether the value at a place is NULL, as one that isn't there is.
fn is_null(row: &[Value], i: usize) -> bool
    ensures { result ≡ is_null (value_at row.now i) }
{
    match row.get(i) {
        Some(value) => value.is_null(),
        None => true,
    }
}

// The truth of what is never unknown.
fn truth_of(holds: bool) -> Truth
    ensures { result ≡ truth_of holds }
{
    if holds { Truth::Yes } else { Truth::No }
}

/// The truth of an atom on a row.
pub fn atom_truth(atom: Atom, row: &[Value], constants: &[Value]) -> Truth
    ensures { result ≡ atom_truth constants.now row.now atom }
{
    match atom {
        Atom::Cols(i, op, j) => compared(op, row, i, row, j),
        Atom::Const(i, op, k) => compared(op, row, i, constants, k),
        Atom::IsNull(i) => truth_of(is_null(row, i)),
        Atom::NotNull(i) => truth_of(!is_null(row, i)),
    }
}
