ghost use Rattle.std.specs.Prelude.{◌≡◌, ◌++◌, [], map, nat_le, if◌then◌else◌};
ghost use Rattle.predicate_core.specs.declared.pred.Pred.TheVariants.{One};
ghost use Rattle.predicate_core.specs.Atoms.{two_atoms, three_atoms, more_atoms, pred_list};
ghost use Rattle.query_core.specs.Standard.{same_bool, alike, first_alike};
ghost use Rattle.bag_eval.specs.Alike.{found_alike, two_joined, three_joined, pairs_joined, pairs_under, triples_joined};

use predicate_core::{Atom, Pred, keeps};
use table_core::Tuple;
use value_core::Value;

// How the atoms of a predicate are joined.
#[derive(Clone, Copy, Debug)]
enum Joining {
    And,
    Or,
}

// A predicate with the rows from which it chooses, and the constants that it may name.
#[derive(Drop)]
pub(crate) struct Chooser<'a> {
    pub constants: &'a [Value],
    pub rows: &'a [Tuple],
    pub pred: &'a Pred,
}

// Whether two truth values are the same.
fn same_bool(a: bool, b: bool) -> bool
    ensures { result ≡ same_bool a b }
{
    if a { b } else { !b }
}

// Whether another predicate keeps the same rows.
fn is_alike(chooser: &Chooser, other: &Pred) -> bool
    ensures { result ≡ alike chooser.now.constants.now chooser.now.rows.now chooser.now.pred.now other.now }
{
    let constants = chooser.constants;
    chooser.rows.iter().all(|row| {
        same_bool(
            keeps(chooser.pred, row.cells(), constants),
            keeps(other, row.cells(), constants),
        )
    })
}

// The first single atom that keeps the same rows.
fn first_single(chooser: &Chooser, atoms: &[Atom]) -> Option<Pred>
    ensures { result ≡ found_alike chooser.now.constants.now chooser.now.rows.now chooser.now.pred.now (map One atoms.now) }
{
    atoms
        .iter()
        .map(|a| Pred::One(*a))
        .find(|p| is_alike(chooser, p))
}

// Two atoms joined.
fn two_joined(joining: Joining, a: Atom, b: Atom) -> Pred
    ensures { result ≡ two_joined joining a b }
{
    match joining {
        Joining::And => Pred::And2(a, b),
        Joining::Or => Pred::Or2(a, b),
    }
}

// Three atoms joined.
fn three_joined(joining: Joining, a: Atom, b: Atom, c: Atom) -> Pred
    ensures { result ≡ three_joined joining a b c }
{
    match joining {
        Joining::And => Pred::And3(a, b, c),
        Joining::Or => Pred::Or3(a, b, c),
    }
}

// The first of an atom joined with each of some others that keeps the same rows.
fn first_two(chooser: &Chooser, joining: Joining, a: Atom, others: &[Atom]) -> Option<Pred>
    ensures { result ≡ found_alike chooser.now.constants.now chooser.now.rows.now chooser.now.pred.now (map (two_joined joining a) others.now) }
{
    others
        .iter()
        .map(|b| two_joined(joining, a, *b))
        .find(|p| is_alike(chooser, p))
}

// The first of each two of some atoms joined that keeps the same rows.
fn first_pair(chooser: &Chooser, joining: Joining, atoms: &[Atom]) -> Option<Pred>
    ensures { result ≡ found_alike chooser.now.constants.now chooser.now.rows.now chooser.now.pred.now (pairs_joined joining atoms.now) }
{
    for i in 0..atoms.len() {
        match first_two(chooser, joining, atoms[i], &atoms[i + 1..]) {
            Some(found) => return Some(found),
            None => {}
        }
    }
    None
}

// The first of two atoms joined with each of some others that keeps the same rows.
fn first_three(
    chooser: &Chooser,
    joining: Joining,
    a: Atom,
    b: Atom,
    others: &[Atom],
) -> Option<Pred>
    ensures { result ≡ found_alike chooser.now.constants.now chooser.now.rows.now chooser.now.pred.now (map (three_joined joining a b) others.now) }
{
    others
        .iter()
        .map(|c| three_joined(joining, a, b, *c))
        .find(|p| is_alike(chooser, p))
}

// The first of an atom joined with each two of some others that keeps the same rows.
fn first_pair_under(chooser: &Chooser, joining: Joining, a: Atom, others: &[Atom]) -> Option<Pred>
    ensures { result ≡ found_alike chooser.now.constants.now chooser.now.rows.now chooser.now.pred.now (pairs_under joining a others.now) }
{
    for i in 0..others.len() {
        match first_three(chooser, joining, a, others[i], &others[i + 1..]) {
            Some(found) => return Some(found),
            None => {}
        }
    }
    None
}

// The first of each three of some atoms joined that keeps the same rows.
fn first_triple(chooser: &Chooser, joining: Joining, atoms: &[Atom]) -> Option<Pred>
    ensures { result ≡ found_alike chooser.now.constants.now chooser.now.rows.now chooser.now.pred.now (triples_joined joining atoms.now) }
{
    for i in 0..atoms.len() {
        match first_pair_under(chooser, joining, atoms[i], &atoms[i + 1..]) {
            Some(found) => return Some(found),
            None => {}
        }
    }
    None
}

// The first predicate of two atoms that keeps the same rows: of the ANDs, and then of the ORs.
#[tactic(auto, using(crate::proofs::AlikeLists::found_append))]
fn first_of_two(chooser: &Chooser, atoms: &[Atom]) -> Option<Pred>
    ensures { result ≡ found_alike chooser.now.constants.now chooser.now.rows.now chooser.now.pred.now (two_atoms atoms.now) }
{
    match first_pair(chooser, Joining::And, atoms) {
        Some(found) => Some(found),
        None => first_pair(chooser, Joining::Or, atoms),
    }
}

// The first predicate of three atoms that keeps the same rows: of the ANDs, and then of the ORs.
#[tactic(auto, using(crate::proofs::AlikeLists::found_append))]
fn first_of_three(chooser: &Chooser, atoms: &[Atom]) -> Option<Pred>
    ensures { result ≡ found_alike chooser.now.constants.now chooser.now.rows.now chooser.now.pred.now (three_atoms atoms.now) }
{
    match first_triple(chooser, Joining::And, atoms) {
        Some(found) => Some(found),
        None => first_triple(chooser, Joining::Or, atoms),
    }
}

// The same, where the bound is three.
fn first_up_to_three(chooser: &Chooser, atoms: &[Atom], bound: u32) -> Option<Pred>
    ensures { result ≡ found_alike chooser.now.constants.now chooser.now.rows.now chooser.now.pred.now (if nat_le 3 bound then three_atoms atoms.now else []) }
{
    if bound >= 3 {
        first_of_three(chooser, atoms)
    } else {
        None
    }
}

// The first predicate of two atoms that keeps the same rows, where the bound is two.
fn first_up_to_two(chooser: &Chooser, atoms: &[Atom], bound: u32) -> Option<Pred>
    ensures { result ≡ found_alike chooser.now.constants.now chooser.now.rows.now chooser.now.pred.now (if nat_le 2 bound then two_atoms atoms.now else []) }
{
    if bound >= 2 {
        first_of_two(chooser, atoms)
    } else {
        None
    }
}

// The first predicate of two or three atoms that keeps the same rows, as far as the bound goes.
#[tactic(auto, using(crate::proofs::AlikeLists::found_append))]
fn first_of_more(chooser: &Chooser, atoms: &[Atom], bound: u32) -> Option<Pred>
    ensures { result ≡ found_alike chooser.now.constants.now chooser.now.rows.now chooser.now.pred.now (more_atoms atoms.now bound) }
{
    match first_up_to_two(chooser, atoms, bound) {
        Some(found) => Some(found),
        None => first_up_to_three(chooser, atoms, bound),
    }
}

// The first predicate of one atom or more that keeps the same rows.
#[tactic(auto, using(crate::proofs::AlikeLists::found_append))]
fn first_of_some(chooser: &Chooser, atoms: &[Atom], bound: u32) -> Option<Pred>
    ensures { result ≡ found_alike chooser.now.constants.now chooser.now.rows.now chooser.now.pred.now (map One atoms.now ++ more_atoms atoms.now bound) }
{
    match first_single(chooser, atoms) {
        Some(found) => Some(found),
        None => first_of_more(chooser, atoms, bound),
    }
}

// Of the predicates of up to so many of some atoms the first that keeps the same rows; the predicate itself where none does.
pub(crate) fn first_alike(chooser: &Chooser, atoms: &[Atom], bound: u32) -> Pred
    ensures { result ≡ first_alike chooser.now.constants.now chooser.now.rows.now (pred_list atoms.now bound) chooser.now.pred.now }
{
    if is_alike(chooser, &Pred::Always) {
        return Pred::Always;
    }
    match first_of_some(chooser, atoms, bound) {
        Some(found) => found,
        None => *chooser.pred,
    }
}
