ghost use Rattle.std.specs.Prelude.{◌≡◌, ◌≤◌, length, None};
ghost use Rattle.query_core.specs.Membership.{query_fault};
ghost use Rattle.query_core.specs.Rank.{Key, key, key_order, before, distinct_cost};
ghost use Rattle.query_core.specs.View.{select};

use crate::body::{tree_cost, unused_constants};
use crate::hole_numbers::{HoleNumbers, push_numbers};
use arrayvec::ArrayVec;
use query_core::Query;
use std::cmp::Ordering;
use std::marker::Model;
use table_core::{MOST_OUTPUT_COLUMNS, Task};

/// What queries are ranked by: unused constants, cost, skeleton, predicate numbers, map and distinct.
#[derive(Debug, Drop)]
pub struct RankKey {
    unused: usize,
    cost: u64,
    skeleton: u32,
    numbers: HoleNumbers,
    picks: ArrayVec<usize, MOST_OUTPUT_COLUMNS>,
    distinct: bool,
}

impl Model for RankKey {
    ghost use Rattle.query_core.specs.Rank.{Key};

    ghost Value = { Key };

    ghost view = { λ k. record { unused = k.unused; cost = k.cost; skeleton = k.skeleton; numbers = k.numbers.items; picks = k.picks.items; distinct = k.distinct } };
}

// The cost of removing duplicates.
fn distinct_cost(distinct: bool) -> u64
    ensures { result ≡ distinct_cost distinct }
{
    if distinct { 1 } else { 0 }
}

// The columns that a map selects, of which there are as few as an output has.
fn few_picks(picks: &[usize]) -> ArrayVec<usize, MOST_OUTPUT_COLUMNS>
    requires { length picks.now ≤ MOST_OUTPUT_COLUMNS }
    ensures { result.items ≡ picks.now }
{
    let mut out = ArrayVec::new();
    for at in picks {
        out.push(*at);
    }
    out
}

/// The key of a query of the grammar, with the number of its skeleton.
pub fn key(task: &Task, skeleton: u32, query: &Query) -> RankKey
    requires belongs { query_fault task.now (select query.now) ≡ None }
    ensures { result ≡ key task.now skeleton (select query.now) }
{
    let task = task.parts();
    let mut numbers = ArrayVec::new();
    push_numbers(task, &query.body, &mut numbers);
    RankKey {
        unused: unused_constants(task, &query.body),
        cost: tree_cost(&query.body) + distinct_cost(query.distinct),
        skeleton,
        numbers,
        picks: few_picks(query.map.as_slice()),
        distinct: query.distinct,
    }
}

/// The order of two keys, part by part.
pub fn key_order(a: &RankKey, b: &RankKey) -> Ordering
    ensures { result ≡ key_order a.now b.now }
{
    let by_lists = a
        .numbers
        .as_slice()
        .cmp(b.numbers.as_slice())
        .then(a.picks.as_slice().cmp(b.picks.as_slice()))
        .then(distinct_cost(a.distinct).cmp(&distinct_cost(b.distinct)));
    a.unused
        .cmp(&b.unused)
        .then(a.cost.cmp(&b.cost))
        .then(a.skeleton.cmp(&b.skeleton))
        .then(by_lists)
}

/// Whether a key comes strictly before another.
pub fn before(a: &RankKey, b: &RankKey) -> bool
    ensures { result ≡ before a.now b.now }
{
    key_order(a, b).is_lt()
}
