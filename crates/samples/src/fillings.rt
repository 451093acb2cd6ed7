//! The standard fillings of skeletons, with their rows.

use crate::fault::Failed;
use crate::make::{Shape, Tree, node, task};
use crate::show::Rows;
use fill_core::{Fillings, fill};
use predicate_core::Pred;
use query_core::Pairing;
use std::alloc::Global;

const ONE_COLUMN: Shape = Shape {
    inputs: &[("t", "a#\n1\n2\n-")],
    constants: "1",
    numbers: [1, 1, 1, 25, 1],
    ..Shape::LEAST
};

const TWO_TABLES: Shape = Shape {
    inputs: &[("t", "a#\n1\n2"), ("u", "b#\n2")],
    numbers: [1, 2, 1, 25, 1],
    ..Shape::LEAST
};

const T: &Tree = &Tree::Base(0);

const U: &Tree = &Tree::Base(1);

// Tasks, each with a skeleton.
const CASES: &[(Shape, Tree)] = &[
    (ONE_COLUMN, Tree::Filter(T, Pred::Always)),
    (
        Shape {
            numbers: [1, 1, 2, 25, 1],
            ..ONE_COLUMN
        },
        Tree::Filter(T, Pred::Always),
    ),
    (TWO_TABLES, Tree::Pair(Pairing::Join, T, U, Pred::Always)),
    (TWO_TABLES, Tree::Pair(Pairing::Left, T, U, Pred::Always)),
];

// Each filling: its predicates and its rows.
fn listed(rt: &impl Print, row: &Fillings) -> Result<(), Failed> {
    println!(rt; "{} fillings", row.entries.len())?;
    for entry in row.entries.as_slice() {
        println!(rt;
            "{:?}:{}",
            entry.preds.as_slice(),
            Rows(entry.rows.as_slice())
        )?;
    }
    Ok(())
}

pub fn samples(rt: &impl Print, alloc: Global) -> Result<(), Failed> {
    for (shape, skeleton) in CASES {
        let task = task(alloc, shape)?;
        let skeleton = node(alloc, skeleton)?;
        listed(rt, &fill(alloc, &task, &skeleton)?)?;
    }
    Ok(())
}
