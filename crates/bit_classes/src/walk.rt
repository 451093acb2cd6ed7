ghost use Rattle.std.specs.Prelude.{◌≡◌, ◌+◌, ◌<◌, ◌≤◌, ◌^◌, ◌∷◌, ◌++◌, [], length, map, option_map, Some, None, IfSome, IfOk, IfErr, OnOk, if◌then◌else◌};
ghost use Rattle.std.specs.List.{All, enumerate_from};
ghost use Rattle.bit_classes.specs.Vectors.{combined};
ghost use Rattle.bit_classes.specs.Walk.{Sees, HasWidth, is_known, numbered, new_vectors, combined_told, combined_passing, SameWidth, if_new, with_told, new_pairs, told_later, classes_under, told_triples};

use crate::class::ClassEnd;
use crate::found::Found;
use crate::join::{Join, combine_rows, set_combined};
use crate::sieve::Sieve;
use bit_rows::BitRow;
use predicate_core::pair_count;
use std::alloc::Global;
use value_core::OutOfMemory;

// Appends a row, or that there is none.
fn note(news: &mut Vec<Option<BitRow>>, row: Option<BitRow>) -> Result<(), OutOfMemory>
    ensures { OnOk result (news.new.items ≡ news.old.items ++ row ∷ []) }
{
    Ok(news.push(row)?)
}

// Sees a row, and notes it where it is new.
fn see_new(
    found: &mut Found,
    row: &BitRow,
    number: u64,
    news: &mut Vec<Option<BitRow>>,
) -> Result<(), ClassEnd>
    ensures sees { Sees found.old ((number, row.now) ∷ []) found.new result }
    ensures notes { OnOk result (news.new.items ≡ news.old.items ++ (if is_known found.old.classes row.now then None else Some row.now) ∷ []) }
{
    if found.knows(row) {
        note(news, None)?;
        return Ok(());
    }
    found.see(row, number)?;
    note(news, Some(row.copy(found.alloc())?))?;
    Ok(())
}

/// Sees some rows, under the numbers from one on, and notes those that are new.
pub fn see_rows(
    found: &mut Found,
    rows: &[BitRow],
    number: u64,
    news: &mut Vec<Option<BitRow>>,
) -> Result<(), ClassEnd>
    requires { number + length rows.now < 2 ^ 63 }
    ensures sees { Sees found.old (enumerate_from number rows.now) found.new result }
    ensures notes { OnOk result (news.new.items ≡ news.old.items ++ new_vectors found.old.classes number rows.now) }
{
    for (i, row) in rows.iter().enumerate() {
        see_new(found, row, number + i as u64, news)?;
    }
    Ok(())
}

// Two rows combined, where there are both, and what they give may be wanted.
fn combine_told<S: Sieve>(
    alloc: Global,
    sieve: &S,
    join: Join,
    row: &Option<BitRow>,
    other: &Option<BitRow>,
) -> Result<Option<BitRow>, OutOfMemory>
    requires { SameWidth row.now other.now }
    ensures { IfOk result (λ both. both ≡ combined_passing (S.may sieve.now join) join row.now other.now) }
{
    let (Some(row), Some(other)) = (row, other) else {
        return Ok(None);
    };
    let both = combine_rows(alloc, join, row, other)?;
    if sieve.may(join, &both) {
        return Ok(Some(both));
    }
    Ok(None)
}

// Sees a row combined with another, where there is one.
#[tactic(auto, using(crate::proofs::SplitLaws::joined_length))]
fn see_both(
    found: &mut Found,
    join: Join,
    both: &mut BitRow,
    row: &BitRow,
    other: &Option<BitRow>,
    number: u64,
) -> Result<(), ClassEnd>
    requires width { length both.old ≡ length row.now }
    requires widths { IfSome other.now (λ v. length row.now ≡ length v) }
    ensures sees { Sees found.old (numbered number (option_map (combined join row.now) other.now ∷ [])) found.new result }
    ensures width { length both.new ≡ length row.now }
{
    match other {
        Some(other) => {
            set_combined(both, join, row, other);
            found.see(both, number)
        }
        None => Ok(()),
    }
}

// Sees a row combined with each of some others that there is, under the numbers from one on.
fn see_combined(
    found: &mut Found,
    join: Join,
    row: &BitRow,
    others: &[Option<BitRow>],
    number: u64,
) -> Result<(), ClassEnd>
    requires width { length row.now ≡ found.old.width }
    requires widths { All (HasWidth found.old.width) others.now }
    requires small { number + length others.now < 2 ^ 63 }
    ensures { Sees found.old (numbered number (map (combined_told join (Some row.now)) others.now)) found.new result }
{
    let mut both = row.copy(found.alloc())?;
    for (i, other) in others.iter().enumerate() {
        see_both(found, join, &mut both, row, other, number + i as u64)?;
    }
    Ok(())
}

// The same of a row that there may be.
fn see_told(
    found: &mut Found,
    join: Join,
    row: &Option<BitRow>,
    others: &[Option<BitRow>],
    number: u64,
) -> Result<(), ClassEnd>
    requires width { HasWidth found.old.width row.now }
    requires widths { All (HasWidth found.old.width) others.now }
    requires small { number + length others.now < 2 ^ 63 }
    ensures { Sees found.old (numbered number (map (combined_told join row.now) others.now)) found.new result }
{
    match row {
        Some(row) => see_combined(found, join, row, others, number),
        None => Ok(()),
    }
}

/// Sees each of some first rows combined with those of some rows that stand later, where there are both, under the numbers from one on.
pub fn see_later(
    found: &mut Found,
    join: Join,
    firsts: &[Option<BitRow>],
    rows: &[Option<BitRow>],
    number: u64,
) -> Result<(), ClassEnd>
    requires beside { length firsts.now ≡ length rows.now }
    requires firsts { All (HasWidth found.old.width) firsts.now }
    requires widths { All (HasWidth found.old.width) rows.now }
    requires few { length rows.now ≤ 100000 }
    requires small { number ≤ 2 ^ 61 }
    ensures { Sees found.old (numbered number (told_later join firsts.now rows.now)) found.new result }
{
    let mut next = number;
    for i in 0..rows.len() {
        let others = &rows[i + 1..];
        see_told(found, join, &firsts[i], others, next)?;
        next += others.len() as u64;
    }
    Ok(())
}

// A row that there may be, if it is new among some rows: it is one of them from then on.
fn keep_new(pairs: &mut Found, row: Option<BitRow>) -> Result<Option<BitRow>, OutOfMemory>
    ensures told { IfOk result (λ told. told ≡ if_new pairs.old.classes row) }
    ensures classes { OnOk result (pairs.new.classes ≡ with_told pairs.old.classes row) }
{
    let Some(row) = row else {
        return Ok(None);
    };
    if pairs.knows(&row) {
        return Ok(None);
    }
    pairs.see(&row, 0).map_err(|_| OutOfMemory)?;
    Ok(Some(row))
}

// A row combined with each of some others in turn, where there are both, what they give may be wanted, and it is new among `pairs`.
fn pairs_under<S: Sieve>(
    pairs: &mut Found,
    sieve: &S,
    join: Join,
    first: &Option<BitRow>,
    rows: &[Option<BitRow>],
) -> Result<Vec<Option<BitRow>>, OutOfMemory>
    requires { All (SameWidth first.now) rows.now }
    ensures told { IfOk result (λ boths. boths.items ≡ new_pairs (S.may sieve.now join) join pairs.old.classes first.now rows.now) }
    ensures classes { OnOk result (pairs.new.classes ≡ classes_under (S.may sieve.now join) join pairs.old.classes first.now rows.now) }
{
    let mut boths = Vec::new(pairs.alloc());
    for i in 0..rows.len() {
        let combined = combine_told(pairs.alloc(), sieve, join, first, &rows[i])?;
        let both = keep_new(pairs, combined)?;
        note(&mut boths, both)?;
    }
    Ok(boths)
}

/// Sees each three of some rows combined, where there are all, under the numbers from one on. Where two of them give no new row,
/// or none that may be wanted, they give none with a third either.
pub fn see_triples<S: Sieve>(
    found: &mut Found,
    sieve: &S,
    join: Join,
    rows: &[Option<BitRow>],
    number: u64,
) -> Result<(), ClassEnd>
    requires widths { All (HasWidth found.old.width) rows.now }
    requires few { length rows.now ≤ 100000 }
    requires small { number ≤ 2 ^ 60 }
    ensures { Sees found.old (numbered number (told_triples (S.may sieve.now join) join [] rows.now)) found.new result }
{
    let mut pairs = Found::new(found.alloc(), found.width(), u64::MAX);
    let mut next = number;
    for i in 0..rows.len() {
        let others = &rows[i + 1..];
        let boths = pairs_under(&mut pairs, sieve, join, &rows[i], others)?;
        see_later(found, join, boths.as_slice(), others, next)?;
        next += pair_count(others.len() as u64);
    }
    Ok(())
}
