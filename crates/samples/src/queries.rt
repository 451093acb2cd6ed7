//! Queries in SQL.

use crate::fault::Failed;
use crate::make::{Shape, Tree, query, task};
use crate::show::text;
use predicate_core::{Atom, Pred};
use query_core::{Agg, Pairing, Query, Uniting};
use sql_print::sql;
use std::alloc::Global;
use table_core::Task;
use value_core::CmpOp;

// Two tables, one of them with quotes in its names.
const SHAPE: Shape = Shape {
    inputs: &[("t", "id# v"), ("o\"k", "\"n# it's")],
    output: "a b",
    constants: "2 it's",
    ..Shape::LEAST
};

const PLAIN: &Tree = &Tree::Base(0);

const QUOTED: &Tree = &Tree::Base(1);

const IS_TWO: Atom = Atom::Const(0, CmpOp::Eq, 0);

const NOT_TEXT: Atom = Atom::Const(1, CmpOp::Ne, 1);

const IS_NULL: Atom = Atom::IsNull(1);

const NOT_NULL: Atom = Atom::NotNull(0);

const IN_ORDER: Atom = Atom::Cols(0, CmpOp::Le, 1);

const SAME: Pred = Pred::One(Atom::Cols(0, CmpOp::Eq, 2));

// A tree, a map and whether the query is distinct.
type Case = (Tree, [usize; 2], bool);

const CASES: &[Case] = &[
    (Tree::Filter(PLAIN, Pred::One(NOT_TEXT)), [0, 1], false),
    (
        Tree::Filter(PLAIN, Pred::And2(IS_TWO, IN_ORDER)),
        [0, 1],
        false,
    ),
    (
        Tree::Filter(PLAIN, Pred::Or3(IS_TWO, IS_NULL, NOT_NULL)),
        [0, 1],
        false,
    ),
    (Tree::Base(1), [0, 1], true),
    (
        Tree::Filter(&Tree::Filter(PLAIN, Pred::One(IS_TWO)), Pred::One(IS_NULL)),
        [0, 1],
        false,
    ),
    (
        Tree::Pair(Pairing::Join, PLAIN, QUOTED, SAME),
        [0, 3],
        false,
    ),
    (
        Tree::Pair(
            Pairing::Left,
            PLAIN,
            &Tree::Pair(Pairing::Join, PLAIN, QUOTED, Pred::Always),
            Pred::Always,
        ),
        [0, 5],
        false,
    ),
    (Tree::Group(PLAIN, &[1], Agg::Max(0)), [1, 0], false),
    (
        Tree::Group(PLAIN, &[], Agg::CountDistinct(1)),
        [0, 0],
        false,
    ),
    (Tree::Unite(Uniting::Firsts, PLAIN, QUOTED), [0, 1], false),
    (Tree::Unite(Uniting::All, QUOTED, PLAIN), [1, 1], true),
];

fn copy(alloc: Global, query: &Query) -> Result<Query, Failed> {
    Ok(query.copy(alloc)?)
}

// A copy of a case's query.
fn copied(alloc: Global, (tree, map, distinct): &Case) -> Result<Query, Failed> {
    copy(alloc, &query(alloc, tree, map, *distinct)?)
}

// The SQL of a query.
fn printed(rt: &impl Print, alloc: Global, task: &Task, query: &Query) -> Result<(), Failed> {
    let bytes = sql(alloc, task, query)?;
    println!(rt; "{}", text(bytes.as_slice()))?;
    Ok(())
}

fn all(rt: &impl Print, alloc: Global, task: &Task, cases: &[Case]) -> Result<(), Failed> {
    for case in cases {
        printed(rt, alloc, task, &copied(alloc, case)?)?;
    }
    Ok(())
}

pub fn samples(rt: &impl Print, alloc: Global) -> Result<(), Failed> {
    all(rt, alloc, &task(alloc, &SHAPE)?, CASES)
}
