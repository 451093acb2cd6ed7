//! The keys of queries, and answers in the order of their keys.

ghost use Rattle.std.specs.Prelude.{IfOk};
ghost use Rattle.rank_core.specs.View.{ascends, ranked_queries};

use crate::fault::Failed;
use crate::make::{Shape, Tree, query, task};
use predicate_core::{Atom, Pred};
use query_core::belongs;
use rank_core::{Ranked, before, key, key_order, merge, sort};
use std::alloc::Global;
use table_core::Task;
use value_core::CmpOp;

const SHAPE: Shape = Shape {
    inputs: &[("t", "a#"), ("u", "a# b#"), ("v", "a# b#"), ("w", "a# b#")],
    constants: "7",
    numbers: [1, 1, 2, 25, 1],
    ..Shape::LEAST
};

// The number of a skeleton, a tree, a map and a flag.
type Case = (u32, Tree, &'static [usize], bool);

const BASE: &Tree = &Tree::Base(0);

const IS_NULL: Atom = Atom::IsNull(0);

const IS_SEVEN: Atom = Atom::Const(0, CmpOp::Eq, 0);

// Answers out of the order of their keys; those of two are equal.
const CASES: &[Case] = &[
    (0, Tree::Filter(BASE, Pred::One(IS_NULL)), &[0], true),
    (
        0,
        Tree::Filter(BASE, Pred::And2(IS_SEVEN, IS_NULL)),
        &[0],
        false,
    ),
    (0, Tree::Filter(BASE, Pred::One(IS_NULL)), &[0], false),
    (1, Tree::Base(0), &[0], false),
    (0, Tree::Base(1), &[1], false),
    (0, Tree::Base(1), &[0], false),
    (
        0,
        Tree::Filter(BASE, Pred::Or2(IS_SEVEN, IS_NULL)),
        &[0],
        false,
    ),
    (1, Tree::Filter(BASE, Pred::One(IS_SEVEN)), &[0], false),
    (0, Tree::Base(2), &[0], false),
];

// Three lists of answers; a key stands in each of them.
const FIRST: &[Case] = &[
    (1, Tree::Base(0), &[0], false),
    (0, Tree::Base(3), &[1], false),
];

const SECOND: &[Case] = &[(0, Tree::Base(1), &[1], false)];

const THIRD: &[Case] = &[
    (0, Tree::Base(2), &[1], false),
    (0, Tree::Base(1), &[0], false),
];

fn ranked(alloc: Global, task: &Task, case: &Case) -> Result<Ranked, Failed> {
    let query = query(alloc, &case.1, case.2, case.3)?;
    belongs(alloc, task, &query)?;
    let key = key(task, case.0, &query);
    Ok(Ranked { key, query })
}

// The answers of some cases.
fn all_ranked(alloc: Global, task: &Task, cases: &[Case]) -> Result<Vec<Ranked>, Failed> {
    let mut list = Vec::new(alloc);
    for case in cases {
        list.push(ranked(alloc, task, case)?)?;
    }
    Ok(list)
}

// The answers of some cases in the order of their keys.
#[tactic(auto, using(rank_core::proofs::MergeLaws::ordered_ascends))]
fn sorted(alloc: Global, cases: &[Case]) -> Result<Vec<Ranked>, Failed>
    ensures { IfOk result (λ list. ascends (ranked_queries list)) }
{
    let mut list = all_ranked(alloc, &task(alloc, &SHAPE)?, cases)?;
    sort(&mut list)?;
    Ok(list)
}

// The answers of the three lists in the order of their keys.
fn merged(alloc: Global) -> Result<Vec<Ranked>, Failed> {
    let first = sorted(alloc, FIRST)?;
    let second = sorted(alloc, SECOND)?;
    let third = sorted(alloc, THIRD)?;
    Ok(merge(alloc, vec![in alloc; first, second, third]?)?)
}

// Each answer's body and its key.
fn listed(rt: &impl Print, list: &[Ranked]) -> Result<(), Failed> {
    for answer in list {
        println!(rt; "{:?}", answer.query.body)?;
        println!(rt; "  {:?}", answer.key)?;
    }
    Ok(())
}

// How each answer's key stands to the next one's.
fn ordered(rt: &impl Print, list: &[Ranked]) -> Result<(), Failed> {
    for i in 1..list.len() {
        let order = key_order(&list[i - 1].key, &list[i].key);
        let is_before = before(&list[i - 1].key, &list[i].key);
        println!(rt; "{order:?}, {is_before}")?;
    }
    Ok(())
}

// Each answer's body, in one line.
fn bodies(rt: &impl Print, list: &[Ranked]) -> Result<(), Failed> {
    print!(rt; "merged:")?;
    for answer in list {
        print!(rt; " {:?}", answer.query.body)?;
    }
    println!(rt)?;
    Ok(())
}

pub fn samples(rt: &impl Print, alloc: Global) -> Result<(), Failed> {
    let list = sorted(alloc, CASES)?;
    listed(rt, list.as_slice())?;
    ordered(rt, list.as_slice())?;
    bodies(rt, merged(alloc)?.as_slice())
}
