//! Classes of predicates, by the rows that they keep.

use crate::fault::Failed;
use bit_classes::{Class, classes};
use bit_rows::BitRow;
use std::alloc::Global;

// The row of a text, of which each 1 stands for a bit that is set.
fn row(alloc: Global, text: &str) -> Result<BitRow, Failed> {
    let mut bits = Vec::new(alloc);
    for byte in text.as_bytes() {
        bits.push(*byte == b'1')?;
    }
    Ok(BitRow::of(alloc, bits.as_slice())?)
}

fn rows(alloc: Global, texts: &[&str]) -> Result<Vec<BitRow>, Failed> {
    let mut rows = Vec::new(alloc);
    for text in texts {
        rows.push(row(alloc, text)?)?;
    }
    Ok(rows)
}

// A class: its number, and for each row whether it is kept.
fn shown(rt: &impl Print, class: &Class) -> Result<(), Failed> {
    print!(rt; " {}:", class.number)?;
    for i in 0..class.bits.len() {
        let bit = class.bits.bit(i) == Some(true);
        print!(rt; "{}", u8::from(bit))?;
    }
    Ok(())
}

// How many rows there are, the vectors of the atoms, the bound on atoms and the limit on classes.
type Case = (usize, &'static [&'static str], u32, u64);

// The classes of some atoms.
fn listed(rt: &impl Print, alloc: Global, case: &Case, atoms: &[BitRow]) -> Result<(), Failed> {
    let (width, _, bound, limit) = *case;
    if atoms.len() > 10 || !atoms.iter().all(|row| row.len() == width) {
        return Err(Failed::BadSample);
    }
    match classes(alloc, width, atoms, bound, limit) {
        Ok(found) => {
            for class in found.as_slice() {
                shown(rt, class)?;
            }
        }
        Err(end) => print!(rt; " {end:?}")?,
    }
    Ok(())
}

const CASES: &[Case] = &[
    (2, &[], 3, 9),
    (2, &["01", "10"], 1, 9),
    (2, &["01", "10"], 2, 9),
    (2, &["01", "10"], 2, 4),
    (2, &["01", "10"], 2, 3),
    (3, &["110", "101", "011"], 1, 9),
    (3, &["110", "101", "011"], 2, 9),
    (3, &["110", "101", "011"], 3, 8),
    (3, &["110", "101", "011"], 3, 7),
    (3, &["110", "110", "101", "011"], 3, 9),
    (4, &["1000", "0100", "0010"], 3, 9),
    (2, &["11", "01", "01", "10"], 3, 9),
];

fn case(rt: &impl Print, alloc: Global, case: &Case) -> Result<(), Failed> {
    print!(rt; "{} atoms, up to {} in one:", case.1.len(), case.2)?;
    listed(rt, alloc, case, rows(alloc, case.1)?.as_slice())?;
    println!(rt)?;
    Ok(())
}

pub fn samples(rt: &impl Print, alloc: Global) -> Result<(), Failed> {
    for it in CASES {
        case(rt, alloc, it)?;
    }
    Ok(())
}
