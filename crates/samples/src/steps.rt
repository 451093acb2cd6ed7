//! Steps over tables, and what trees and queries give.

use crate::fault::Failed;
use crate::make::{Shape, Tree, query, table, task};
use crate::show::{Grid, Rows};
use bag_eval::{
    Eval, answer, filter_rows, group_rows, join_rows, left_rows, node_rows, project, query_rows,
    rows, union_rows,
};
use predicate_core::{Atom, Pred};
use query_core::{Agg, Node, Pairing, Query, Uniting, columns, same_types, table_types};
use sqlite_items::Items;
use std::alloc::Global;
use table_core::{Table, Task, TaskParts, Tuple};
use value_core::CmpOp;

// What is done to one or two tables.
#[derive(Debug)]
enum Step {
    Filter(Pred),
    Join(Pred),
    LeftJoin(Pred),
    Project(&'static [usize], bool),
    Group(&'static [usize], Agg),
    Union(bool),
}

// The union of two tables whose columns have the same types.
fn united(alloc: Global, left: &Table, right: &Table, all: bool) -> Result<Table, Failed> {
    let lefts = table_types(alloc, left)?;
    let rights = table_types(alloc, right)?;
    if !same_types(lefts.as_slice(), rights.as_slice()) {
        return Err(Failed::BadSample);
    }
    Ok(union_rows(alloc, left, right, all)?)
}

fn stepped(alloc: Global, step: &Step, left: &Table, right: &Table) -> Result<Eval, Failed> {
    let table = match step {
        Step::Filter(pred) => filter_rows(alloc, &[], left, pred)?,
        Step::Join(pred) => join_rows(alloc, &[], left, right, pred)?,
        Step::LeftJoin(pred) => left_rows(alloc, &[], left, right, pred)?,
        Step::Project(picks, distinct) => project(alloc, left, picks, *distinct)?,
        Step::Group(keys, agg) => return Ok(group_rows(alloc, left, keys, agg)?),
        Step::Union(all) => united(alloc, left, right, *all)?,
    };
    Ok(Eval::Rows(table))
}

// A step, and the left and the right table.
type Case = (Step, &'static str, &'static str);

fn shown(rt: &impl Print, alloc: Global, (step, left, right): &Case) -> Result<(), Failed> {
    println!(rt; "{step:?}:")?;
    let left = table(alloc, "l", left)?;
    let right = table(alloc, "r", right)?;
    given(rt, &stepped(alloc, step, &left, &right)?)
}

// What a step, a tree or a query gives.
fn given(rt: &impl Print, eval: &Eval) -> Result<(), Failed> {
    match eval {
        Eval::Rows(table) => println!(rt; "  {}", Grid(table))?,
        Eval::Past64 => println!(rt; "  leaves 64 bits")?,
    }
    Ok(())
}

const KEYS: &str = "k\nx\ny";

const NUMBERED: &str = "k n#\nx 7";

const DOUBLES: &str = "k n#\nx 7\n- 7\n- 7";

const LARGE: &str = "n#\n9223372036854775807\n1";

const SAME_KEY: Pred = Pred::One(Atom::Cols(0, CmpOp::Eq, 1));

const CASES: &[Case] = &[
    (Step::Join(SAME_KEY), KEYS, NUMBERED),
    (Step::LeftJoin(SAME_KEY), KEYS, NUMBERED),
    (Step::Filter(Pred::One(Atom::IsNull(0))), DOUBLES, KEYS),
    (Step::Project(&[1, 0], false), DOUBLES, KEYS),
    (Step::Project(&[1, 0], true), DOUBLES, KEYS),
    (Step::Project(&[], true), DOUBLES, KEYS),
    (Step::Group(&[0], Agg::CountAll), DOUBLES, KEYS),
    (Step::Group(&[], Agg::Sum(0)), LARGE, KEYS),
    (Step::Union(true), KEYS, KEYS),
    (Step::Union(false), KEYS, KEYS),
];

const SHAPE: Shape = Shape {
    inputs: &[("t", "k\na"), ("n", LARGE)],
    ..Shape::LEAST
};

const TEXTS: &Tree = &Tree::Base(0);

const NULL_TEXTS: &Tree = &Tree::Filter(TEXTS, Pred::One(Atom::IsNull(0)));

const TREES: &[Tree] = &[
    Tree::Group(NULL_TEXTS, &[], Agg::CountAll),
    Tree::Group(NULL_TEXTS, &[0], Agg::CountAll),
    Tree::Group(&Tree::Base(1), &[], Agg::Sum(0)),
    Tree::Pair(Pairing::Left, TEXTS, NULL_TEXTS, SAME_KEY),
    Tree::Pair(Pairing::Join, TEXTS, TEXTS, SAME_KEY),
    Tree::Unite(Uniting::All, TEXTS, TEXTS),
    Tree::Unite(Uniting::Firsts, TEXTS, TEXTS),
];

// The rows that a tree or a query gives.
fn listed(rt: &impl Print, rows: Option<Items<Tuple>>) -> Result<(), Failed> {
    match rows {
        Some(rows) => println!(rt; "  rows:{}", Rows(rows.as_slice()))?,
        None => println!(rt; "  none")?,
    }
    Ok(())
}

// What a tree gives as a table.
fn evaluated(rt: &impl Print, alloc: Global, task: &Task, node: &Node) -> Result<(), Failed> {
    println!(rt; "{node:?}:")?;
    columns(alloc, task.parts(), node)?;
    given(rt, &rows(alloc, task, node)?)
}

// The same as rows.
fn evaluated_rows(
    rt: &impl Print,
    alloc: Global,
    task: &TaskParts,
    node: &Node,
) -> Result<(), Failed> {
    let constants = task.constants.as_slice();
    listed(
        rt,
        node_rows(alloc, task.inputs.as_slice(), constants, node)?,
    )
}

// What a query gives as a table.
fn answered(rt: &impl Print, alloc: Global, task: &Task, query: &Query) -> Result<(), Failed> {
    columns(alloc, task.parts(), &query.body)?;
    given(rt, &answer(alloc, task, query)?)
}

// The same as rows.
fn answered_rows(
    rt: &impl Print,
    alloc: Global,
    task: &TaskParts,
    query: &Query,
) -> Result<(), Failed> {
    let constants = task.constants.as_slice();
    listed(
        rt,
        query_rows(alloc, task.inputs.as_slice(), constants, query)?,
    )
}

// What a query's tree gives, and what the query gives.
fn both(rt: &impl Print, alloc: Global, task: &Task, query: &Query) -> Result<(), Failed> {
    evaluated(rt, alloc, task, &query.body)?;
    evaluated_rows(rt, alloc, task.parts(), &query.body)?;
    answered(rt, alloc, task, query)?;
    answered_rows(rt, alloc, task.parts(), query)
}

// The same of trees, each in a query that has its first column twice.
fn trees(rt: &impl Print, alloc: Global, task: &Task, trees: &[Tree]) -> Result<(), Failed> {
    for tree in trees {
        both(rt, alloc, task, &query(alloc, tree, &[0, 0], true)?)?;
    }
    Ok(())
}

fn cases(rt: &impl Print, alloc: Global, cases: &[Case]) -> Result<(), Failed> {
    for case in cases {
        shown(rt, alloc, case)?;
    }
    Ok(())
}

pub fn samples(rt: &impl Print, alloc: Global) -> Result<(), Failed> {
    cases(rt, alloc, CASES)?;
    trees(rt, alloc, &task(alloc, &SHAPE)?, TREES)
}
