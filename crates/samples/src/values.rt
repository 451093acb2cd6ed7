//! Values, words and bytes.

use crate::fault::Failed;
use crate::make::value;
use crate::show::{Cell, text};
use std::alloc::Global;
use value_core::{
    Bytes, CmpOp, LONGEST_WORD, Value, Word, compare, concatenated, copied, held, order, read_int,
    same,
};

const SPELLINGS: &[&str] = &[
    "0",
    "7",
    "-7",
    "9223372036854775807",
    "9223372036854775808",
    "-9223372036854775808",
    "-9223372036854775809",
    "007",
    "-0",
    "-",
    "+1",
    "",
    "1 ",
    "a",
];

// The number that a spelling stands for.
fn number(rt: &impl Print, spelling: &str) -> Result<(), Failed> {
    let number = read_int(spelling.as_bytes());
    println!(rt; "{spelling:?} reads as {number:?}")?;
    Ok(())
}

// Two values each.
const PAIRS: &[(&str, &str)] = &[
    ("-", "-"),
    ("-", "-2"),
    ("-2", "7"),
    ("7", "-2"),
    ("7", "B"),
    ("B", "a"),
    ("ab", "a"),
    ("ab", "ab"),
];

// How two values compare.
fn order_of(rt: &impl Print, a: &Value, b: &Value) -> Result<(), Failed> {
    let order = order(a, b);
    let same = same(a, b);
    let truth = compare(CmpOp::Le, a, b);
    println!(rt;
        "{} and {}: {order:?}, same: {same}, <=: {truth:?}",
        Cell(a),
        Cell(b)
    )?;
    Ok(())
}

// The same of two words, the second as a copy.
fn compared(rt: &impl Print, alloc: Global, left: &str, right: &str) -> Result<(), Failed> {
    let a = value(alloc, left)?;
    let b = value(alloc, right)?.copy(alloc)?;
    order_of(rt, &a, &b)
}

const LONG: &[u8] = &[b'x'; LONGEST_WORD + 1];

// Bytes, and the word of them.
fn word(rt: &impl Print, alloc: Global, bytes: &[u8]) -> Result<(), Failed> {
    let bytes = Bytes::of(alloc, bytes)?;
    let len = bytes.as_slice().len();
    match Word::of(alloc, bytes.as_slice()) {
        Ok(word) => println!(rt;
            "{len} bytes, the word {}",
            text(word.copy(alloc)?.as_slice())
        )?,
        Err(fault) => println!(rt; "{len} bytes, no word: {fault}")?,
    }
    Ok(())
}

fn items(rt: &impl Print, alloc: Global) -> Result<(), Failed> {
    let some = copied(alloc, &[3, 1])?;
    let more = concatenated(alloc, some.as_slice(), &[2])?;
    println!(rt; "{:?} and {:?}", some.as_slice(), more.as_slice())?;
    Ok(())
}

// A word of bytes that are known to be one, and numbers that their type holds or not.
fn known(rt: &impl Print, alloc: Global) -> Result<(), Failed> {
    let word = Word::new(alloc, b"id")?;
    println!(rt; "the word {}", text(word.as_slice()))?;
    println!(rt;
        "held: {:?} and {:?}",
        held(7u8.checked_add(1)),
        held(255u8.checked_add(1))
    )?;
    Ok(())
}

pub fn samples(rt: &impl Print, alloc: Global) -> Result<(), Failed> {
    for spelling in SPELLINGS {
        number(rt, spelling)?;
    }
    for (left, right) in PAIRS {
        compared(rt, alloc, left, right)?;
    }
    for bytes in [&[], &LONG[..1], &LONG[..LONGEST_WORD], LONG] {
        word(rt, alloc, bytes)?;
    }
    known(rt, alloc)?;
    items(rt, alloc)
}
