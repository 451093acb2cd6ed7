ghost use Rattle.std.specs.Prelude.{◌≡◌, ◌+◌, ◌<◌, ◌≤◌, ◌^◌, [], length, filter, IfOk, OnOk};
ghost use Rattle.std.specs.List.{All};
ghost use Rattle.bit_classes.specs.declared.class.ClassEnd.TheVariants.{More};
ghost use Rattle.bit_classes.specs.Vectors.{vectors};
ghost use Rattle.bit_classes.specs.Classes.{classes_of};
ghost use Rattle.bit_classes.specs.Sieves.{IsSieve, is_wanted};
ghost use Rattle.bit_classes.specs.Walk.{Sees, HasWidth, numbered, told_two, told_three, told_more, all_told};

use crate::class::{Class, ClassEnd};
use crate::found::Found;
use crate::join::Join;
use crate::sieve::{Every, Sieve};
use crate::sift::sift_rows;
use crate::walk::{see_later, see_rows, see_triples};
use bit_rows::BitRow;
use predicate_core::{pair_count, triple_count};
use std::alloc::Global;
use value_core::OutOfMemory;

// Sees the vectors of the predicates of two atoms that are told, under the numbers from one on.
fn see_two(
    found: &mut Found,
    ands: &[Option<BitRow>],
    ors: &[Option<BitRow>],
    number: u64,
) -> Result<(), ClassEnd>
    requires ands { All (HasWidth found.old.width) ands.now }
    requires ors { All (HasWidth found.old.width) ors.now }
    requires beside { length ands.now ≡ length ors.now }
    requires few { length ands.now ≤ 100000 }
    requires small { number ≤ 2 ^ 59 }
    ensures { Sees found.old (numbered number (told_two ands.now ors.now)) found.new result }
{
    see_later(found, Join::And, ands, ands, number)?;
    see_later(
        found,
        Join::Or,
        ors,
        ors,
        number + pair_count(ands.len() as u64),
    )
}

// Sees the vectors of the predicates of three atoms that are told, under the numbers from one on.
fn see_three<S: Sieve>(
    found: &mut Found,
    sieve: &S,
    ands: &[Option<BitRow>],
    ors: &[Option<BitRow>],
    number: u64,
) -> Result<(), ClassEnd>
    requires ands { All (HasWidth found.old.width) ands.now }
    requires ors { All (HasWidth found.old.width) ors.now }
    requires beside { length ands.now ≡ length ors.now }
    requires few { length ands.now ≤ 100000 }
    requires small { number ≤ 2 ^ 59 }
    ensures { Sees found.old (numbered number (told_three (S.may sieve.now) ands.now ors.now)) found.new result }
{
    see_triples(found, sieve, Join::And, ands, number)?;
    see_triples(
        found,
        sieve,
        Join::Or,
        ors,
        number + triple_count(ands.len() as u64),
    )
}

// Sees the vectors of the predicates of two or three atoms that are told and may be wanted, as far as the bound goes.
fn see_more<S: Sieve>(
    found: &mut Found,
    sieve: &S,
    rows: &[Option<BitRow>],
    bound: u32,
    number: u64,
) -> Result<(), ClassEnd>
    requires widths { All (HasWidth found.old.width) rows.now }
    requires few { length rows.now ≤ 100000 }
    requires small { number ≤ 2 ^ 58 }
    ensures { Sees found.old (numbered number (told_more (S.may sieve.now) rows.now bound)) found.new result }
{
    if bound < 2 {
        return Ok(());
    }
    let ands = sift_rows(found.alloc(), sieve, Join::And, rows)?;
    let ors = sift_rows(found.alloc(), sieve, Join::Or, rows)?;
    see_two(found, ands.as_slice(), ors.as_slice(), number)?;
    if bound < 3 {
        return Ok(());
    }
    let next = number + 2 * pair_count(rows.len() as u64);
    see_three(found, sieve, ands.as_slice(), ors.as_slice(), next)
}

// Sees the vector of each predicate that may be wanted, under its number. An atom whose vector isn't new gives nothing new with
// others either.
fn see_all<S: Sieve>(
    found: &mut Found,
    sieve: &S,
    rows: &[BitRow],
    bound: u32,
) -> Result<(), ClassEnd>
    requires empty { found.old.classes ≡ [] }
    requires widths { All (λ row. length row ≡ found.old.width) rows.now }
    requires few { length rows.now ≤ 100000 }
    ensures { Sees found.old (all_told (S.may sieve.now) found.old.width rows.now bound) found.new result }
{
    let full = BitRow::full(found.alloc(), found.width())?;
    found.see(&full, 0)?;
    let mut news = Vec::new(found.alloc());
    see_rows(found, rows, 1, &mut news)?;
    see_more(found, sieve, news.as_slice(), bound, 1 + rows.len() as u64)
}

/// Each vector that some predicate of up to `bound` atoms gives, once, with the number of the first predicate that gives it,
/// ascending by number. Here a vector tells which of `width` rows are kept, and `atoms` has the vector of each atom.
pub fn classes(
    alloc: Global,
    width: usize,
    atoms: &[BitRow],
    bound: u32,
    limit: u64,
) -> Result<Vec<Class>, ClassEnd>
    requires widths { All (λ row. length row ≡ width) atoms.now }
    requires few { length atoms.now ≤ 100000 }
    ensures classes { IfOk result (λ found. found.items ≡ classes_of (vectors width atoms.now bound)) }
    ensures within { OnOk result (length (classes_of (vectors width atoms.now bound)) ≤ limit) }
    ensures more { result ≡ Err More → limit < length (classes_of (vectors width atoms.now bound)) }
{
    let mut found = Found::new(alloc, width, limit);
    see_all(&mut found, &Every { width }, atoms, bound)?;
    found.into_classes()
}

// Leaves the classes that may be wanted.
fn sift<S: Sieve>(sieve: &S, found: &mut Vec<Class>)
    ensures { found.new.items ≡ filter (is_wanted (S.may sieve.now)) found.old.items }
{
    found.retain(|class| sieve.may(Join::And, &class.bits) && sieve.may(Join::Or, &class.bits));
}

/// Of these classes those that a sieve may want.
pub fn wanted_classes<S: Sieve>(
    alloc: Global,
    sieve: &S,
    width: usize,
    atoms: &[BitRow],
    bound: u32,
) -> Result<Vec<Class>, OutOfMemory>
    requires width { S.width sieve.now ≡ width }
    requires sieve { IsSieve width (S.may sieve.now) }
    requires widths { All (λ row. length row ≡ width) atoms.now }
    requires few { length atoms.now ≤ 100000 }
    ensures { IfOk result (λ found. found.items ≡ filter (is_wanted (S.may sieve.now)) (classes_of (vectors width atoms.now bound))) }
{
    let mut found = Found::new(alloc, width, u64::MAX);
    let Ok(()) = see_all(&mut found, sieve, atoms, bound) else {
        return Err(OutOfMemory);
    };
    let Ok(mut wanted) = found.into_classes() else {
        return Err(OutOfMemory);
    };
    sift(sieve, &mut wanted);
    Ok(wanted)
}
