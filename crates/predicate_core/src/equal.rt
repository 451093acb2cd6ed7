ghost use Rattle.std.specs.Prelude.{◌≡◌, length};
ghost use Rattle.std.specs.List.{list_any};
ghost use Rattle.predicate_core.specs.Equal.{op_number, same_atom, same_pred, atoms_of, uses_constant};

use crate::atom::Atom;
use crate::pred::Pred;
use value_core::CmpOp;

/// The place of a comparison among the six.
pub fn op_number(op: CmpOp) -> u8
    ensures { result ≡ op_number op }
{
    match op {
        CmpOp::Eq => 0,
        CmpOp::Ne => 1,
        CmpOp::Lt => 2,
        CmpOp::Le => 3,
        CmpOp::Gt => 4,
        CmpOp::Ge => 5,
    }
}

// Whether two atoms are the same.
fn same_atom(a: Atom, b: Atom) -> bool
    ensures { result ≡ same_atom a b }
{
    match (a, b) {
        (Atom::Cols(i, op, j), Atom::Cols(k, other, l)) => {
            i == k && op_number(op) == op_number(other) && j == l
        }
        (Atom::Const(i, op, j), Atom::Const(k, other, l)) => {
            i == k && op_number(op) == op_number(other) && j == l
        }
        (Atom::IsNull(i), Atom::IsNull(k)) => i == k,
        (Atom::NotNull(i), Atom::NotNull(k)) => i == k,
        _ => false,
    }
}

/// Whether two predicates are the same.
pub fn same_pred(p: &Pred, q: &Pred) -> bool
    ensures { result ≡ same_pred p.now q.now }
{
    match (*p, *q) {
        (Pred::Always, Pred::Always) => true,
        (Pred::One(a), Pred::One(b)) => same_atom(a, b),
        (Pred::And2(a, b), Pred::And2(c, d)) => same_atom(a, c) && same_atom(b, d),
        (Pred::Or2(a, b), Pred::Or2(c, d)) => same_atom(a, c) && same_atom(b, d),
        (Pred::And3(a, b, c), Pred::And3(d, e, f)) => {
            same_atom(a, d) && same_atom(b, e) && same_atom(c, f)
        }
        (Pred::Or3(a, b, c), Pred::Or3(d, e, f)) => {
            same_atom(a, d) && same_atom(b, e) && same_atom(c, f)
        }
        _ => false,
    }
}

/// How many atoms a predicate has.
pub fn atom_count(pred: &Pred) -> usize
    ensures { result ≡ length (atoms_of pred.now) }
{
    match *pred {
        Pred::Always => 0,
        Pred::One(_) => 1,
        Pred::And2(..) | Pred::Or2(..) => 2,
        Pred::And3(..) | Pred::Or3(..) => 3,
    }
}

// Whether an atom compares with the constant of this number.
fn uses_constant(number: usize, atom: Atom) -> bool
    ensures { result ≡ uses_constant number atom }
{
    match atom {
        Atom::Const(_, _, k) => k == number,
        Atom::Cols(..) | Atom::IsNull(_) | Atom::NotNull(_) => false,
    }
}

/// Whether a predicate compares with the constant of this number.
pub fn has_constant(pred: &Pred, number: usize) -> bool
    ensures { result ≡ list_any (uses_constant number) (atoms_of pred.now) }
{
    match *pred {
        Pred::Always => false,
        Pred::One(a) => uses_constant(number, a),
        Pred::And2(a, b) | Pred::Or2(a, b) => uses_constant(number, a) || uses_constant(number, b),
        Pred::And3(a, b, c) | Pred::Or3(a, b, c) => {
            uses_constant(number, a) || uses_constant(number, b) || uses_constant(number, c)
        }
    }
}
