ghost use Rattle.std.specs.Prelude.{◌≡◌, ◌≤◌, ◌<◌, ◌+◌, IfSome, length, if◌then◌else◌, nat_le, None, option_map};
ghost use Rattle.predicate_core.specs.Atoms.{atom_list, pairs, triples};
ghost use Rattle.predicate_core.specs.Search.{pair_place, triple_place, pair_spot, triple_spot, IsPlace};

use crate::atom::Atom;
use crate::numbers::{pair_count, triple_count};
use crate::search::search_atoms;
use value_core::{ColType, Value};

// The place of the pair of two places among the pairs of n elements.
#[tactic(auto, using(crate::proofs::PlaceLaws::pair_closed))]
fn pair_place(n: u64, i: u64, j: u64) -> u64
    requires few { n ≤ 100000 }
    requires first { i < j }
    requires second { j < n }
    ensures place { result ≡ pair_place n i j }
    ensures small { result ≤ 20000000000 }
{
    (pair_count(n) + j) - (pair_count(n - i) + i + 1)
}

// The place of the triple of three places among the triples of n elements.
#[tactic(auto, using(crate::proofs::PlaceLaws::triple_closed))]
fn triple_place(n: u64, i: u64, j: u64, k: u64) -> u64
    requires few { n ≤ 100000 }
    requires first { i < j }
    requires second { j < k }
    requires third { k < n }
    ensures place { result ≡ triple_place n i j k }
    ensures small { result ≤ 2000000000000000 }
{
    (triple_count(n) + pair_place(n - i - 1, j - i - 1, k - i - 1)) - triple_count(n - i)
}

// The place of the pair of what stands at two places, if at all.
fn pair_spot(n: u64, i: Option<u64>, j: Option<u64>) -> Option<u64>
    requires few { n ≤ 100000 }
    requires second { IfSome j (λ at. at < n) }
    ensures place { result ≡ pair_spot n i j }
    ensures small { IfSome result (λ at. at ≤ 20000000000) }
{
    match (i, j) {
        (Some(i), Some(j)) => {
            if i < j {
                Some(pair_place(n, i, j))
            } else {
                None
            }
        }
        _ => None,
    }
}

// The place of the triple of what stands at three places, if at all.
fn triple_spot(n: u64, i: Option<u64>, j: Option<u64>, k: Option<u64>) -> Option<u64>
    requires few { n ≤ 100000 }
    requires third { IfSome k (λ at. at < n) }
    ensures place { result ≡ triple_spot n i j k }
    ensures small { IfSome result (λ at. at ≤ 2000000000000000) }
{
    match (i, j, k) {
        (Some(i), Some(j), Some(k)) => {
            if i < j && j < k {
                Some(triple_place(n, i, j, k))
            } else {
                None
            }
        }
        _ => None,
    }
}

/// Where a pair of atoms stands among the pairs of atoms, if at all.
pub fn two_place(types: &[ColType], constants: &[Value], a: Atom, b: Atom) -> Option<u64>
    requires few { length (atom_list types.now constants.now) ≤ 100000 }
    ensures place { IsPlace (a, b) (pairs (atom_list types.now constants.now)) result }
    ensures small { IfSome result (λ at. at ≤ 20000000000) }
{
    let first = search_atoms(types, constants, a);
    let second = search_atoms(types, constants, b);
    pair_spot(first.count, first.place, second.place)
}

/// Where three atoms stand among the triples of atoms, if at all.
pub fn three_place(types: &[ColType], constants: &[Value], a: Atom, b: Atom, c: Atom) -> Option<u64>
    requires few { length (atom_list types.now constants.now) ≤ 100000 }
    ensures place { IsPlace (a, b, c) (triples (atom_list types.now constants.now)) result }
    ensures small { IfSome result (λ at. at ≤ 2000000000000000) }
{
    let first = search_atoms(types, constants, a);
    let second = search_atoms(types, constants, b);
    let third = search_atoms(types, constants, c);
    triple_spot(first.count, first.place, second.place, third.place)
}
