//! Atoms, predicates and their numbers.

use crate::fault::Failed;
use crate::make::values;
use predicate_core::{Atom, Pred, PredList, atom_count, atoms, has_constant, keeps, preds, truth};
use sqlite_items::Items;
use std::alloc::Global;
use value_core::{CmpOp, ColType, OutOfMemory, Value};

// The atoms over two columns of numbers and one number.
fn number_atoms(alloc: Global) -> Result<Items<Atom>, Failed> {
    let constants = values(alloc, "7")?;
    let types = [ColType::Int, ColType::Int];
    Ok(atoms(alloc, &types, constants.as_slice())?)
}

// Each of these atoms.
fn listed(rt: &impl Print, alloc: Global) -> Result<(), Failed> {
    let atoms = number_atoms(alloc)?;
    for atom in atoms.as_slice() {
        println!(rt; "{atom:?}")?;
    }
    Ok(())
}

// Bounds, and numbers in the lists of predicates of up to so many of these atoms.
const NUMBERS: &[(u32, &[u64])] = &[
    (1, &[0, 1, 22, 23]),
    (2, &[23, 253, 254, 484, 485]),
    (3, &[485, 2024, 2025, 3564, 3565]),
];

// The predicates at these numbers.
fn numbered(rt: &impl Print, list: &PredList, numbers: &[u64]) -> Result<(), Failed> {
    println!(rt; "{} predicates", list.len())?;
    for number in numbers {
        println!(rt; "{number}: {:?}", list.at(*number))?;
    }
    Ok(())
}

// The predicates of up to `bound` of some atoms, at these numbers.
fn numbered_of(
    rt: &impl Print,
    alloc: Global,
    atoms: &[Atom],
    bound: u32,
    numbers: &[u64],
) -> Result<(), Failed> {
    if atoms.len() > 3000 {
        return Err(Failed::BadSample);
    }
    let list = preds(alloc, atoms, bound)?;
    numbered(rt, &list, numbers)
}

// Tests for NULL of 3,000 columns.
fn null_atoms(alloc: Global) -> Result<Items<Atom>, OutOfMemory> {
    let mut atoms = Items::new(alloc);
    for column in 0..3000 {
        atoms.push(Atom::IsNull(column))?;
    }
    Ok(atoms)
}

const UNKNOWN: Atom = Atom::Const(0, CmpOp::Ne, 0);

const YES: Atom = Atom::Const(1, CmpOp::Eq, 0);

const NO: Atom = Atom::Cols(1, CmpOp::Lt, 1);

const PREDS: &[Pred] = &[
    Pred::Always,
    Pred::One(UNKNOWN),
    Pred::One(YES),
    Pred::One(NO),
    Pred::One(Atom::Cols(0, CmpOp::Eq, 0)),
    Pred::One(Atom::IsNull(0)),
    Pred::One(Atom::NotNull(0)),
    Pred::One(Atom::IsNull(1)),
    Pred::One(Atom::NotNull(1)),
    Pred::And2(UNKNOWN, YES),
    Pred::And2(UNKNOWN, NO),
    Pred::Or2(UNKNOWN, YES),
    Pred::Or2(UNKNOWN, NO),
    Pred::And3(YES, YES, UNKNOWN),
    Pred::Or3(NO, UNKNOWN, YES),
];

// What a predicate says of a row.
fn judged(rt: &impl Print, pred: &Pred, row: &[Value], constants: &[Value]) -> Result<(), Failed> {
    let truth = truth(pred, row, constants);
    let kept = keeps(pred, row, constants);
    println!(rt; "{pred:?}: {truth:?}, kept: {kept}")?;
    Ok(())
}

// How many atoms a predicate has, and whether one of them has constant 0, or 1.
fn counted(rt: &impl Print, pred: &Pred) -> Result<(), Failed> {
    let count = atom_count(pred);
    let has = [has_constant(pred, 0), has_constant(pred, 1)];
    println!(rt; "{pred:?}: {count} atoms, with constants 0 and 1: {has:?}")?;
    Ok(())
}

// The predicates of up to some bounds of some atoms.
fn bounded(rt: &impl Print, alloc: Global, cases: &[(u32, &[u64])]) -> Result<(), Failed> {
    let atoms = number_atoms(alloc)?;
    for (bound, numbers) in cases {
        numbered_of(rt, alloc, atoms.as_slice(), *bound, numbers)?;
    }
    Ok(())
}

// What predicates say of the row of NULL and 7, where the only constant is 7.
fn all_judged(rt: &impl Print, alloc: Global, preds: &[Pred]) -> Result<(), Failed> {
    let row = values(alloc, "- 7")?;
    let constants = values(alloc, "7")?;
    for pred in preds {
        judged(rt, pred, row.as_slice(), constants.as_slice())?;
    }
    Ok(())
}

fn all_counted(rt: &impl Print, preds: &[Pred]) -> Result<(), Failed> {
    for pred in preds {
        counted(rt, pred)?;
    }
    Ok(())
}

// The predicates of up to three tests for NULL of 3,000 columns, at numbers past 32 bits.
fn many(rt: &impl Print, alloc: Global) -> Result<(), Failed> {
    let atoms = null_atoms(alloc)?;
    let numbers = &[9_000_002_000, 9_000_002_001];
    numbered_of(rt, alloc, atoms.as_slice(), 3, numbers)
}

pub fn samples(rt: &impl Print, alloc: Global) -> Result<(), Failed> {
    listed(rt, alloc)?;
    bounded(rt, alloc, NUMBERS)?;
    many(rt, alloc)?;
    all_judged(rt, alloc, PREDS)?;
    all_counted(rt, PREDS)
}
