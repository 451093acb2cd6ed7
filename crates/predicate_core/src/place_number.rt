ghost use Rattle.std.specs.Prelude.{◌≡◌, ◌≤◌, ◌+◌, length, IfSome, None, option_map, unwrap_or, nat_le, if◌then◌else◌};
ghost use Rattle.std.specs.List.{position_or_len};
ghost use Rattle.predicate_core.specs.Atoms.{atom_list, pred_list};
ghost use Rattle.predicate_core.specs.declared.pred.Pred.TheVariants.{One};
ghost use Rattle.predicate_core.specs.Equal.{same_atom, same_pred};
ghost use Rattle.predicate_core.specs.Search.{IsPlace};

use crate::atom::Atom;
use crate::numbers::{pair_count, triple_count};
use crate::places::{three_place, two_place};
use crate::pred::Pred;
use crate::pred_list::{three_len, two_len};
use crate::search::search_atoms;
use value_core::{ColType, Value};

// The number of what has a place, or else this length.
fn place_or(place: Option<u64>, len: u64) -> u64
    ensures { result ≡ unwrap_or place len }
{
    match place {
        Some(k) => k,
        None => len,
    }
}

// A place moved on by so many, where the bound reaches the least that it needs.
fn moved(base: u64, bound: u32, least: u32, place: Option<u64>) -> Option<u64>
    requires base { base ≤ 10000000000000000 }
    requires place { IfSome place (λ at. at ≤ 10000000000000000) }
    ensures { result ≡ (if nat_le least bound then option_map (λ k. base + k) place else None) }
{
    if bound >= least {
        match place {
            Some(k) => Some(base + k),
            None => None,
        }
    } else {
        None
    }
}

// How many atoms there are.
fn atoms_len(types: &[ColType], constants: &[Value]) -> u64
    requires few { length (atom_list types.now constants.now) ≤ 100000 }
    ensures { result ≡ length (atom_list types.now constants.now) }
{
    search_atoms(types, constants, Atom::IsNull(0)).count
}

// How many predicates there are.
fn preds_len(types: &[ColType], constants: &[Value], bound: u32) -> u64
    requires few { length (atom_list types.now constants.now) ≤ 100000 }
    ensures { result ≡ length (pred_list (atom_list types.now constants.now) bound) }
{
    let n = atoms_len(types, constants);
    1 + n + two_len(n, bound) + three_len(n, bound)
}

// Where one atom stands among the predicates, if at all.
fn one_place(types: &[ColType], constants: &[Value], bound: u32, a: Atom) -> Option<u64>
    requires few { length (atom_list types.now constants.now) ≤ 100000 }
    ensures { IsPlace (One a) (pred_list (atom_list types.now constants.now) bound) result }
{
    moved(1, 0, 0, search_atoms(types, constants, a).place)
}

// Where a predicate stands among the predicates, if at all.
fn pred_place(types: &[ColType], constants: &[Value], bound: u32, pred: &Pred) -> Option<u64>
    requires few { length (atom_list types.now constants.now) ≤ 100000 }
    ensures { IsPlace pred.now (pred_list (atom_list types.now constants.now) bound) result }
{
    let n = atoms_len(types, constants);
    let twos = pair_count(n);
    let threes = triple_count(n);
    match *pred {
        Pred::Always => Some(0),
        Pred::One(a) => one_place(types, constants, bound, a),
        Pred::And2(a, b) => moved(1 + n, bound, 2, two_place(types, constants, a, b)),
        Pred::Or2(a, b) => moved(1 + n + twos, bound, 2, two_place(types, constants, a, b)),
        Pred::And3(a, b, c) => {
            let place = three_place(types, constants, a, b, c);
            moved(1 + n + 2 * twos, bound, 3, place)
        }
        Pred::Or3(a, b, c) => {
            let place = three_place(types, constants, a, b, c);
            moved(1 + n + 2 * twos + threes, bound, 3, place)
        }
    }
}

/// The number of an atom: its place in the list over columns of these types and these constants, the list's length where it isn't there.
pub fn atom_number(types: &[ColType], constants: &[Value], atom: &Atom) -> u64
    requires few { length types.now + length constants.now ≤ 64 }
    ensures { result ≡ position_or_len (same_atom atom.now) (atom_list types.now constants.now) }
{
    let search = search_atoms(types, constants, *atom);
    place_or(search.place, search.count)
}

/// The number of a predicate: its place in the list over columns of these types and these constants, the list's length where it isn't there.
pub fn pred_number(types: &[ColType], constants: &[Value], bound: u32, pred: &Pred) -> u64
    requires few { length types.now + length constants.now ≤ 64 }
    ensures { result ≡ position_or_len (same_pred pred.now) (pred_list (atom_list types.now constants.now) bound) }
{
    let len = preds_len(types, constants, bound);
    place_or(pred_place(types, constants, bound, pred), len)
}
