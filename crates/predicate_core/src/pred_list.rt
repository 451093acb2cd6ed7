ghost use Rattle.std.specs.Prelude.{◌≡◌, ◌≤◌, ◌*◌, ◌++◌, [], option_map, length, map, slice_get, nat_le, IfOk, if◌then◌else◌};
ghost use Rattle.predicate_core.specs.declared.pred.Pred.TheVariants.{One, And2, Or2, And3, Or3};
ghost use Rattle.predicate_core.specs.Counts.{pair_count, triple_count};
ghost use Rattle.predicate_core.specs.Atoms.{pred_list, more_atoms, two_atoms, three_atoms};

use crate::atom::Atom;
use crate::numbers::{pair_at, pair_count, triple_at, triple_count};
use crate::pred::Pred;
use sqlite_items::Items;
use std::alloc::Global;
use std::marker::Model;
use value_core::{OutOfMemory, copied};

/// The predicates of up to so many of some atoms, in order. It keeps the atoms alone: a predicate is computed from its number.
#[derive(Debug, Drop)]
pub struct PredList {
    atoms: Items<Atom>,
    bound: u32,
}

impl Model for PredList {
    ghost use Rattle.std.specs.Prelude.{◌≤◌, List, length};
    ghost use Rattle.predicate_core.specs.declared.pred.Pred.{Pred};
    ghost use Rattle.predicate_core.specs.Atoms.{pred_list};

    ghost Value = { List Pred };

    ghost view = { λ l. pred_list l.atoms l.bound };

    ghost invariant = { λ l. length l.atoms ≤ 100000 };
}

/// The predicates of up to `bound` of these atoms, in order.
pub fn preds(alloc: Global, atoms: &[Atom], bound: u32) -> Result<PredList, OutOfMemory>
    requires { length atoms.now ≤ 100000 }
    ensures { IfOk result (λ list. list ≡ pred_list atoms.now bound) }
{
    let atoms = copied(alloc, atoms)?;
    Ok(PredList { atoms, bound })
}

// The AND of a pair.
fn and_two(pair: Option<(Atom, Atom)>) -> Option<Pred>
    ensures { result ≡ option_map (λ p. And2 p.0 p.1) pair }
{
    match pair {
        Some((a, b)) => Some(Pred::And2(a, b)),
        None => None,
    }
}

// The OR of a pair.
fn or_two(pair: Option<(Atom, Atom)>) -> Option<Pred>
    ensures { result ≡ option_map (λ p. Or2 p.0 p.1) pair }
{
    match pair {
        Some((a, b)) => Some(Pred::Or2(a, b)),
        None => None,
    }
}

// The AND of a triple.
fn and_three(triple: Option<(Atom, Atom, Atom)>) -> Option<Pred>
    ensures { result ≡ option_map (λ p. And3 p.0 p.1 p.2) triple }
{
    match triple {
        Some((a, b, c)) => Some(Pred::And3(a, b, c)),
        None => None,
    }
}

// The OR of a triple.
fn or_three(triple: Option<(Atom, Atom, Atom)>) -> Option<Pred>
    ensures { result ≡ option_map (λ p. Or3 p.0 p.1 p.2) triple }
{
    match triple {
        Some((a, b, c)) => Some(Pred::Or3(a, b, c)),
        None => None,
    }
}

// The predicate of two atoms of a number: the ANDs, and then the ORs.
fn two_at(atoms: &[Atom], number: u64) -> Option<Pred>
    requires { length atoms.now ≤ 100000 }
    ensures { result ≡ slice_get (two_atoms atoms.now) number }
{
    let count = pair_count(atoms.len() as u64);
    if number < count {
        and_two(pair_at(atoms, number))
    } else {
        or_two(pair_at(atoms, number - count))
    }
}

// The predicate of three atoms of a number: the ANDs, and then the ORs.
fn three_at(atoms: &[Atom], number: u64) -> Option<Pred>
    requires { length atoms.now ≤ 100000 }
    ensures { result ≡ slice_get (three_atoms atoms.now) number }
{
    let count = triple_count(atoms.len() as u64);
    if number < count {
        and_three(triple_at(atoms, number))
    } else {
        or_three(triple_at(atoms, number - count))
    }
}

// The predicate of three atoms of a number, where the bound is three.
fn three_up(atoms: &[Atom], bound: u32, number: u64) -> Option<Pred>
    requires { length atoms.now ≤ 100000 }
    ensures { result ≡ slice_get (if nat_le 3 bound then three_atoms atoms.now else []) number }
{
    if bound >= 3 {
        three_at(atoms, number)
    } else {
        None
    }
}

// The predicate of two or three atoms of a number, as far as the bound goes.
fn two_up(atoms: &[Atom], bound: u32, number: u64) -> Option<Pred>
    requires { length atoms.now ≤ 100000 }
    ensures { result ≡ slice_get (more_atoms atoms.now bound) number }
{
    if bound < 2 {
        return three_up(atoms, bound, number);
    }
    let count = 2 * pair_count(atoms.len() as u64);
    if number < count {
        two_at(atoms, number)
    } else {
        three_up(atoms, bound, number - count)
    }
}

// The predicate of one atom or more of a number.
fn one_up(atoms: &[Atom], bound: u32, number: u64) -> Option<Pred>
    requires { length atoms.now ≤ 100000 }
    ensures { result ≡ slice_get (map One atoms.now ++ more_atoms atoms.now bound) number }
{
    let count = atoms.len() as u64;
    if number < count {
        Some(Pred::One(atoms[number as usize]))
    } else {
        two_up(atoms, bound, number - count)
    }
}

/// How many predicates of two atoms there are, as far as the bound goes.
pub fn two_len(n: u64, bound: u32) -> u64
    requires { n ≤ 100000 }
    ensures count { result ≡ (if nat_le 2 bound then 2 * pair_count n else 0) }
    ensures small { result ≤ 20000000000 }
{
    if bound >= 2 { 2 * pair_count(n) } else { 0 }
}

/// How many predicates of three atoms there are, as far as the bound goes.
pub fn three_len(n: u64, bound: u32) -> u64
    requires { n ≤ 100000 }
    ensures count { result ≡ (if nat_le 3 bound then 2 * triple_count n else 0) }
    ensures small { result ≤ 2000000000000000 }
{
    if bound >= 3 { 2 * triple_count(n) } else { 0 }
}

impl PredList {
    /// How many predicates there are.
    pub fn len(&self) -> u64
        ensures { result ≡ length self.now }
    {
        let n = self.atoms.len() as u64;
        1 + n + two_len(n, self.bound) + three_len(n, self.bound)
    }

    /// The predicate of a number, counted from 0.
    pub fn at(&self, number: u64) -> Option<Pred>
        ensures { result ≡ slice_get self.now number }
    {
        let atoms = self.atoms.as_slice();
        if number == 0 {
            return Some(Pred::Always);
        }
        one_up(atoms, self.bound, number - 1)
    }
}
