//! Steps over lists of rows.

use crate::fault::Failed;
use crate::make::{table, values};
use crate::show::Rows;
use bag_eval::{
    cross_rows, first_rows, group_tuples, join_pairs, keep_rows, keeps_all_rows, left_join_pairs,
    select_rows, unite_rows,
};
use predicate_core::{Atom, Pred};
use query_core::{Agg, Uniting};
use sqlite_items::Items;
use std::alloc::Global;
use table_core::{Table, Tuple};
use value_core::{CmpOp, OutOfMemory, Value};

// What is done to one or two lists of rows.
#[derive(Debug)]
enum Step {
    Keep(Pred),
    Select(&'static [usize]),
    Firsts,
    Join(Pred),
    LeftJoin(Pred),
    Cross,
    Unite(Uniting),
    Group(&'static [usize], Agg),
}

// The rows that a step gives, none where a sum leaves 64 bits.
fn stepped(
    alloc: Global,
    ones: &[Value],
    step: &Step,
    lefts: &[Tuple],
    rights: &[Tuple],
) -> Result<Option<Items<Tuple>>, OutOfMemory> {
    let rows = match step {
        Step::Keep(pred) => keep_rows(alloc, ones, lefts, pred)?,
        Step::Select(picks) => select_rows(alloc, picks, lefts)?,
        Step::Firsts => first_rows(alloc, lefts)?,
        Step::Join(pred) => join_pairs(alloc, ones, lefts, rights, pred)?,
        Step::LeftJoin(pred) => left_join_pairs(alloc, ones, 2, lefts, rights, pred)?,
        Step::Cross => cross_rows(alloc, lefts, rights)?,
        Step::Unite(kind) => unite_rows(alloc, *kind, lefts, rights)?,
        Step::Group(keys, agg) => return group_tuples(alloc, keys, agg, lefts),
    };
    Ok(Some(rows))
}

// A step, and the tables with the left and the right rows.
type Case = (Step, &'static str, &'static str);

// The rows that a step gave.
fn given(rt: &impl Print, step: &Step, rows: &Option<Items<Tuple>>) -> Result<(), Failed> {
    match rows {
        Some(rows) => println!(rt; "{step:?}:{}", Rows(rows.as_slice()))?,
        None => println!(rt; "{step:?} leaves 64 bits")?,
    }
    Ok(())
}

fn shown(
    rt: &impl Print,
    alloc: Global,
    ones: &[Value],
    (step, left, right): &Case,
) -> Result<(), Failed> {
    let left = table(alloc, "l", left)?;
    let right = table(alloc, "r", right)?;
    given(
        rt,
        step,
        &stepped(alloc, ones, step, left.tuples(), right.tuples())?,
    )
}

fn all_shown(rt: &impl Print, alloc: Global, ones: &[Value], cases: &[Case]) -> Result<(), Failed> {
    for case in cases {
        shown(rt, alloc, ones, case)?;
    }
    Ok(())
}

const NONE: &str = "";

const TABLE: &str = "a# b#\n1 10\n2 -\n- -\n1 10";

const KEYS: &str = "k\nx\ny";

const PAIRED: &str = "k n#\nx 7";

const CROSSED: &str = "k n#\ny 1\nx 2";

// Two groups of several rows, one of them with NULL as its key, and a group without a value.
const GROUPS: &str = "k n#\na 1\n- 2\nb -\na 3\n- -\na 1";

const ONE: Pred = Pred::One(Atom::Const(0, CmpOp::Eq, 0));

const NOT_ONE: Pred = Pred::One(Atom::Const(0, CmpOp::Ne, 0));

const SECOND_NULL: Pred = Pred::One(Atom::IsNull(1));

const GREATER: Pred = Pred::One(Atom::Cols(0, CmpOp::Gt, 1));

const SAME_KEY: Pred = Pred::One(Atom::Cols(0, CmpOp::Eq, 1));

const CASES: &[Case] = &[
    (Step::Keep(Pred::Always), TABLE, NONE),
    (Step::Keep(ONE), TABLE, NONE),
    (Step::Keep(NOT_ONE), TABLE, NONE),
    (Step::Keep(SECOND_NULL), TABLE, NONE),
    (Step::Keep(GREATER), TABLE, NONE),
    (Step::Select(&[1]), TABLE, NONE),
    (Step::Select(&[1, 0]), TABLE, NONE),
    (Step::Select(&[]), TABLE, NONE),
    (Step::Firsts, TABLE, NONE),
    (Step::Cross, KEYS, PAIRED),
    (Step::Join(SAME_KEY), KEYS, PAIRED),
    (Step::LeftJoin(SAME_KEY), KEYS, PAIRED),
    (Step::Cross, KEYS, CROSSED),
    (Step::Join(Pred::Always), KEYS, CROSSED),
    (Step::LeftJoin(Pred::Always), KEYS, CROSSED),
    (Step::Cross, KEYS, NONE),
    (Step::Join(Pred::Always), KEYS, NONE),
    (Step::LeftJoin(Pred::Always), KEYS, NONE),
    (Step::Unite(Uniting::All), "k\nb\n-", "k\n-\na\nb"),
    (Step::Unite(Uniting::Firsts), "k\nb\n-", "k\n-\na\nb"),
    (Step::Group(&[0], Agg::CountAll), GROUPS, NONE),
    (Step::Group(&[0], Agg::Count(1)), GROUPS, NONE),
    (Step::Group(&[0], Agg::CountDistinct(1)), GROUPS, NONE),
    (Step::Group(&[0], Agg::Sum(1)), GROUPS, NONE),
    (Step::Group(&[0], Agg::Min(1)), GROUPS, NONE),
    (Step::Group(&[0], Agg::Max(1)), GROUPS, NONE),
    (Step::Group(&[], Agg::Max(0)), GROUPS, NONE),
    (Step::Group(&[], Agg::Sum(1)), GROUPS, NONE),
    (Step::Group(&[], Agg::CountAll), NONE, NONE),
    (Step::Group(&[], Agg::Sum(0)), NONE, NONE),
    (Step::Group(&[0], Agg::CountAll), NONE, NONE),
    (
        Step::Group(&[], Agg::Sum(0)),
        "n#\n9223372036854775807\n1",
        NONE,
    ),
    (
        Step::Group(&[], Agg::Sum(0)),
        "n#\n9223372036854775807\n1\n-1",
        NONE,
    ),
];

// Whether predicates keep all of some rows.
fn keeps_all(rt: &impl Print, ones: &[Value], table: &Table) -> Result<(), Failed> {
    for pred in [Pred::Always, ONE, NOT_ONE, SECOND_NULL, GREATER] {
        let all = keeps_all_rows(ones, table.tuples(), &pred);
        println!(rt; "{pred:?} keeps all: {all}")?;
    }
    Ok(())
}

pub fn samples(rt: &impl Print, alloc: Global) -> Result<(), Failed> {
    let ones = values(alloc, "1")?;
    all_shown(rt, alloc, ones.as_slice(), CASES)?;
    let rows = table(alloc, "t", TABLE)?;
    keeps_all(rt, ones.as_slice(), &rows)
}
