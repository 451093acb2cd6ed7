//! Which queries are of a task's grammar, and standard forms.

use crate::fault::Failed;
use crate::make::{Shape, Tree, query, task};
use bag_eval::{Standard, standard_form};
use predicate_core::{Atom, Pred};
use query_core::{Agg, Pairing, Query, QueryFault, belongs};
use std::alloc::Global;
use table_core::Task;
use value_core::CmpOp;

const SHAPE: Shape = Shape {
    inputs: &[("l", "k\nx\ny"), ("r", "k w#\nx 7")],
    output: "k w#\nx 7\ny -",
    numbers: [2, 2, 2, 25, 1],
    ..Shape::LEAST
};

const L: &Tree = &Tree::Base(0);

const R: &Tree = &Tree::Base(1);

const SAME: Pred = Pred::One(Atom::Cols(0, CmpOp::Eq, 1));

const NULL: Atom = Atom::IsNull(0);

const NOT_NULL: Atom = Atom::NotNull(0);

const SECOND_NULL: Atom = Atom::IsNull(1);

const JOINED: &Tree = &Tree::Pair(Pairing::Join, L, R, Pred::Always);

const KEPT: &Tree = &Tree::Filter(L, Pred::One(NOT_NULL));

const LEFT: &Tree = &Tree::Pair(Pairing::Left, L, R, SAME);

const OVER_KEPT: &Tree = &Tree::Pair(Pairing::Left, KEPT, R, Pred::Always);

// A tree, a map and whether the query is distinct.
type Case = (Tree, &'static [usize], bool);

const MEMBERS: &[Case] = &[
    (Tree::Pair(Pairing::Left, L, R, SAME), &[0, 2], false),
    (Tree::Base(2), &[0, 1], false),
    (Tree::Base(0), &[0], false),
    (Tree::Filter(L, Pred::Always), &[0, 0], false),
    (Tree::Filter(JOINED, Pred::One(NULL)), &[0, 2], false),
    (Tree::Filter(R, Pred::Always), &[0, 1], false),
    (
        Tree::Pair(Pairing::Join, R, L, Pred::Always),
        &[2, 1],
        false,
    ),
    (Tree::Group(R, &[1, 0], Agg::CountAll), &[1, 2], false),
    (Tree::Group(R, &[0, 1], Agg::Max(1)), &[0, 1], false),
    (Tree::Group(R, &[0], Agg::CountAll), &[0, 1], false),
    (
        Tree::Filter(R, Pred::And2(SECOND_NULL, NULL)),
        &[0, 1],
        false,
    ),
    (Tree::Filter(OVER_KEPT, Pred::One(NOT_NULL)), &[0, 2], false),
    (
        Tree::Pair(Pairing::Left, L, LEFT, Pred::Always),
        &[0, 3],
        false,
    ),
    (
        Tree::Filter(R, Pred::And3(NULL, NOT_NULL, SECOND_NULL)),
        &[0, 1],
        false,
    ),
];

// Whether a query is of the grammar, and the first rule that it breaks.
fn member(rt: &impl Print, alloc: Global, task: &Task, query: &Query) -> Result<(), Failed> {
    match belongs(alloc, task, query) {
        Ok(()) => println!(rt; "of the grammar")?,
        Err(QueryFault::OutOfMemory) => return Err(Failed::NoMemory),
        Err(fault) => println!(rt; "{fault:?}")?,
    }
    Ok(())
}

// The query of a case.
fn made(alloc: Global, case: &Case) -> Result<Query, Failed> {
    query(alloc, &case.0, case.1, case.2)
}

fn tried(rt: &impl Print, alloc: Global, task: &Task, case: &Case) -> Result<(), Failed> {
    member(rt, alloc, task, &made(alloc, case)?)
}

const SUMS: Shape = Shape {
    inputs: &[("t", "g v#\na 9223372036854775807\na 1")],
    output: "g",
    numbers: [2, 2, 2, 25, 1],
    ..Shape::LEAST
};

const T: &Tree = &Tree::Base(0);

// Queries over the two tables.
const FORMS: &[Case] = &[
    (Tree::Pair(Pairing::Join, KEPT, L, Pred::Always), &[0], true),
    (Tree::Filter(L, Pred::One(NOT_NULL)), &[0], true),
    (Tree::Filter(L, Pred::One(NULL)), &[0], false),
];

// A query whose sum leaves 64 bits, and one whose filter keeps all.
const SUM_FORMS: &[Case] = &[
    (Tree::Group(T, &[0], Agg::Sum(1)), &[0], false),
    (
        Tree::Filter(T, Pred::Or2(SECOND_NULL, Atom::NotNull(1))),
        &[0],
        true,
    ),
];

// A query in its standard form.
fn told(rt: &impl Print, form: &Query) -> Result<(), Failed> {
    print!(rt; "{:?} ", form.body)?;
    println!(rt; "{:?}, distinct: {}", form.map.as_slice(), form.distinct)?;
    Ok(())
}

fn told_standard(rt: &impl Print, standard: &Standard) -> Result<(), Failed> {
    match standard {
        Standard::Form(form) => told(rt, form),
        Standard::Past64 => {
            println!(rt; "leaves 64 bits")?;
            Ok(())
        }
    }
}

// The standard form of a query.
fn form(rt: &impl Print, alloc: Global, task: &Task, query: &Query) -> Result<(), Failed> {
    told_standard(rt, &standard_form(alloc, task, query)?)
}

fn formed(rt: &impl Print, alloc: Global, task: &Task, case: &Case) -> Result<(), Failed> {
    form(rt, alloc, task, &made(alloc, case)?)
}

fn members(rt: &impl Print, alloc: Global, task: &Task, cases: &[Case]) -> Result<(), Failed> {
    for case in cases {
        tried(rt, alloc, task, case)?;
    }
    Ok(())
}

// The standard forms of queries of a task.
fn forms(rt: &impl Print, alloc: Global, task: &Task, cases: &[Case]) -> Result<(), Failed> {
    for case in cases {
        formed(rt, alloc, task, case)?;
    }
    Ok(())
}

// Both over the two tables.
fn of_two(rt: &impl Print, alloc: Global, task: &Task) -> Result<(), Failed> {
    members(rt, alloc, task, MEMBERS)?;
    forms(rt, alloc, task, FORMS)
}

pub fn samples(rt: &impl Print, alloc: Global) -> Result<(), Failed> {
    of_two(rt, alloc, &task(alloc, &SHAPE)?)?;
    forms(rt, alloc, &task(alloc, &SUMS)?, SUM_FORMS)
}
