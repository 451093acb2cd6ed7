//! Rows of bits.

ghost use Rattle.std.specs.Prelude.{◌≡◌, length};

use crate::fault::Failed;
use crate::tell::tell;
use bit_rows::BitRow;
use std::alloc::Global;

// A row of so many bits, of which every so many-th is set, from the first on.
fn every(alloc: Global, len: usize, step: usize) -> Result<BitRow, Failed> {
    let mut bits = Vec::new(alloc);
    for i in 0..len {
        bits.push(step != 0 && i % step == 0)?;
    }
    Ok(BitRow::of(alloc, bits.as_slice())?)
}

// How many bits are set in both of two rows, and in one of them.
fn joined(alloc: Global, a: &BitRow, b: &BitRow) -> Result<[usize; 2], Failed>
    requires { length a.now ≡ length b.now }
{
    let both = a.and(alloc, b)?.ones();
    let either = a.or(alloc, b)?.ones();
    Ok([both, either])
}

// The same in the places of other rows.
fn joined_in_place(alloc: Global, a: &BitRow, b: &BitRow) -> Result<[usize; 2], Failed>
    requires { length a.now ≡ length b.now }
{
    let mut both = a.copy(alloc)?;
    both.set_and(a, b);
    let mut either = a.copy(alloc)?;
    either.set_or(a, b);
    Ok([both.ones(), either.ones()])
}

// What two rows are alone and together.
fn told(
    rt: &impl Print,
    alone: [usize; 3],
    made: [usize; 2],
    set: [usize; 2],
) -> Result<(), Failed> {
    let [len, first, second] = alone;
    println!(rt; "{len} bits: {first} and {second} are set")?;
    println!(rt; "  {} in both, {} in one", made[0], made[1])?;
    tell(rt, "  ", &set[0], " in both, in place")?;
    tell(rt, "  ", &set[1], " in one, in place")
}

// Two rows of one length.
fn both(rt: &impl Print, alloc: Global, a: &BitRow, b: &BitRow) -> Result<(), Failed> {
    if a.len() != b.len() {
        return Err(Failed::BadSample);
    }
    let made = joined(alloc, a, b)?;
    let set = joined_in_place(alloc, a, b)?;
    told(rt, [a.len(), a.ones(), b.ones()], made, set)
}

// How long two rows are, and the steps of their bits.
const PAIRS: &[(usize, usize, usize)] = &[
    (0, 1, 2),
    (1, 1, 2),
    (63, 2, 3),
    (64, 2, 3),
    (65, 64, 32),
    (130, 5, 13),
];

fn pair(rt: &impl Print, alloc: Global, case: &(usize, usize, usize)) -> Result<(), Failed> {
    let a = every(alloc, case.0, case.1)?;
    both(rt, alloc, &a, &every(alloc, case.0, case.2)?)
}

// The places of the bits that are set, one past the end, and whether all are set.
fn read(rt: &impl Print, row: &BitRow) -> Result<(), Failed> {
    for i in 0..130 {
        if row.bit(i) == Some(true) {
            println!(rt; "bit {i} is set")?;
        }
    }
    println!(rt; "bit 130: {:?}, all: {}", row.bit(130), row.all())?;
    Ok(())
}

fn full(rt: &impl Print, row: &BitRow) -> Result<(), Failed> {
    println!(rt; "of a full row {} are set, all: {}", row.ones(), row.all())?;
    Ok(())
}

fn pairs(rt: &impl Print, alloc: Global, cases: &[(usize, usize, usize)]) -> Result<(), Failed> {
    for case in cases {
        pair(rt, alloc, case)?;
    }
    Ok(())
}

pub fn samples(rt: &impl Print, alloc: Global) -> Result<(), Failed> {
    pairs(rt, alloc, PAIRS)?;
    read(rt, &every(alloc, 130, 64)?)?;
    full(rt, &BitRow::full(alloc, 130)?)
}
