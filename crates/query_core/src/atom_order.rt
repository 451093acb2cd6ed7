ghost use Rattle.std.specs.Prelude.{◌≡◌, ◌&&◌, length, nat_le};
ghost use Rattle.query_core.specs.Membership.{columns_ascend, atom_key, atom_before, pred_in_order};

use predicate_core::{Atom, Pred, op_number};

// The place of an atom among all: its group, what it is over, and its comparison.
fn atom_key(atom: Atom) -> [usize; 4]
    ensures { result ≡ atom_key atom }
{
    match atom {
        Atom::Cols(i, op, j) => [0, i, j, usize::from(op_number(op))],
        Atom::Const(i, op, k) => [1, i, k, usize::from(op_number(op))],
        Atom::IsNull(i) => [2, i, 0, 0],
        Atom::NotNull(i) => [2, i, 1, 0],
    }
}

// Whether an atom stands before another in the list of atoms.
fn atom_before(a: Atom, b: Atom) -> bool
    ensures { result ≡ atom_before a b }
{
    atom_key(a).as_slice().cmp(atom_key(b).as_slice()).is_lt()
}

// Whether an atom that compares two columns has the earlier one first.
fn columns_ascend(atom: Atom) -> bool
    ensures { result ≡ columns_ascend atom }
{
    match atom {
        Atom::Cols(i, _, j) => i < j,
        Atom::Const(..) | Atom::IsNull(_) | Atom::NotNull(_) => true,
    }
}

// Whether the atoms of a predicate are in order, each by itself and together.
pub(crate) fn pred_in_order(pred: &Pred) -> bool
    ensures { result ≡ pred_in_order pred.now }
{
    match *pred {
        Pred::Always => true,
        Pred::One(a) => columns_ascend(a),
        Pred::And2(a, b) | Pred::Or2(a, b) => {
            columns_ascend(a) && columns_ascend(b) && atom_before(a, b)
        }
        Pred::And3(a, b, c) | Pred::Or3(a, b, c) => {
            columns_ascend(a)
                && columns_ascend(b)
                && columns_ascend(c)
                && atom_before(a, b)
                && atom_before(b, c)
        }
    }
}
