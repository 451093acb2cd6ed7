ghost use Rattle.std.specs.Prelude.{◌≡◌, ◌≤◌, length, slice_get};
ghost use Rattle.predicate_core.specs.Counts.{pair_count, triple_count};
ghost use Rattle.predicate_core.specs.Atoms.{pairs, triples};

use crate::atom::Atom;

/// How many pairs so many atoms have.
#[tactic(auto, using(crate::proofs::NumberLaws::pair_count_square, crate::proofs::NumberLaws::square_le))]
pub fn pair_count(n: u64) -> u64
    requires { n ≤ 100000 }
    ensures count { result ≡ pair_count n }
    ensures small { result ≤ 10000000000 }
{
    (n * n - n) / 2
}

/// How many triples so many atoms have.
#[tactic(auto, using(crate::proofs::NumberLaws::triple_count_cube, crate::proofs::NumberLaws::square_le, crate::proofs::NumberLaws::cube_le, crate::proofs::NumberLaws::squares_below))]
pub fn triple_count(n: u64) -> u64
    requires { n ≤ 100000 }
    ensures count { result ≡ triple_count n }
    ensures small { result ≤ 1000000000000000 }
{
    (n * n * n + 2 * n - 3 * (n * n)) / 6
}

/// The pair of a number.
pub fn pair_at(atoms: &[Atom], number: u64) -> Option<(Atom, Atom)>
    ensures { result ≡ slice_get (pairs atoms.now) number }
{
    let mut k = number;
    for i in 0..atoms.len() {
        let rest = (atoms.len() - i - 1) as u64;
        if k < rest {
            return Some((atoms[i], atoms[i + 1 + k as usize]));
        }
        k -= rest;
    }
    None
}

/// The triple of a number.
pub fn triple_at(atoms: &[Atom], number: u64) -> Option<(Atom, Atom, Atom)>
    requires { length atoms.now ≤ 100000 }
    ensures { result ≡ slice_get (triples atoms.now) number }
{
    let mut k = number;
    for i in 0..atoms.len() {
        let others = &atoms[i + 1..];
        let rest = pair_count(others.len() as u64);
        if k < rest {
            let (b, c) = pair_at(others, k)?;
            return Some((atoms[i], b, c));
        }
        k -= rest;
    }
    None
}
