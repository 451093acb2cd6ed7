ghost use Rattle.std.specs.Prelude.{◌≡◌, IfOk, codes};
ghost use Rattle.query_core.specs.View.{tree};
ghost use Rattle.sql_print.specs.Sql.{pair_words, union_words, is_joined, placed, where_placed, from_where, join_source, union_source, group_source, input_source, printed, from};

use crate::derived_source::{union_source, where_placed};
use crate::group_source::group_source;
use crate::input::input_source;
use crate::join_source::{is_joined, join_source};
use crate::part::{Place, Printed, from_where, placed};
use predicate_core::Pred;
use query_core::{Agg, Node, Pairing, Uniting};
use std::alloc::Global;
use table_core::TaskParts;
use value_core::OutOfMemory;

// An input where it stands.
fn base_placed(
    alloc: Global,
    task: &TaskParts,
    place: Place,
    table: u32,
    number: u64,
) -> Result<Printed, OutOfMemory>
    ensures { IfOk result (λ part. part ≡ placed place (input_source task.now table number)) }
{
    placed(alloc, place, input_source(alloc, task, table, number)?)
}

// A filter over a source where it stands.
fn filter_placed(
    alloc: Global,
    task: &TaskParts,
    place: Place,
    source: Printed,
    pred: &Pred,
) -> Result<Printed, OutOfMemory>
    ensures { IfOk result (λ part. part ≡ where_placed place (from_where task.now.constants source pred.now)) }
{
    let part = from_where(alloc, task.constants.as_slice(), source, pred)?;
    where_placed(alloc, place, part)
}

// The words between the two sources of a pair.
fn pair_words(kind: Pairing) -> &'static [u8]
    ensures { result.now ≡ pair_words kind }
{
    match kind {
        Pairing::Join => b" JOIN ",
        Pairing::Left => b" LEFT JOIN ",
    }
}

// The words between the two parts of a union.
fn union_words(kind: Uniting) -> &'static [u8]
    ensures { result.now ≡ union_words kind }
{
    match kind {
        Uniting::All => b" UNION ALL ",
        Uniting::Firsts => b" UNION ",
    }
}

// A pair of two sources where it stands; the right one is this node's.
fn pair_placed(
    alloc: Global,
    task: &TaskParts,
    place: Place,
    kind: Pairing,
    node: &Node,
    pred: &Pred,
    left: Printed,
    right: Printed,
) -> Result<Printed, OutOfMemory>
    ensures { IfOk result (λ part. part ≡ placed place (join_source task.now.constants (pair_words kind) (is_joined (tree node.now)) pred.now left right)) }
{
    let constants = task.constants.as_slice();
    let source = join_source(
        alloc,
        constants,
        pair_words(kind),
        is_joined(node),
        pred,
        &left,
        &right,
    )?;
    placed(alloc, place, source)
}

// A union of two parts where it stands.
fn union_placed(
    alloc: Global,
    place: Place,
    kind: Uniting,
    left: Printed,
    right: Printed,
) -> Result<Printed, OutOfMemory>
    ensures { IfOk result (λ part. part ≡ placed place (union_source (union_words kind) left right)) }
{
    placed(
        alloc,
        place,
        union_source(alloc, union_words(kind), &left, &right)?,
    )
}

// The groups of a part where they stand.
fn group_placed(
    alloc: Global,
    place: Place,
    keys: &[usize],
    agg: &Agg,
    part: Printed,
) -> Result<Printed, OutOfMemory>
    ensures { IfOk result (λ source. source ≡ placed place (group_source keys.now agg.now part)) }
{
    placed(alloc, place, group_source(alloc, keys, agg, &part)?)
}

// A tree where it stands, with aliases from this number on.
fn printed(
    alloc: Global,
    task: &TaskParts,
    node: &Node,
    place: Place,
    number: u64,
) -> Result<Printed, OutOfMemory>
    ensures { IfOk result (λ part. part ≡ printed task.now (tree node.now) place number) }
{
    match node {
        Node::Base(table) => base_placed(alloc, task, place, *table, number),
        Node::Filter(child, pred) => {
            let source = printed(alloc, task, child.get(), Place::Among, number)?;
            filter_placed(alloc, task, place, source, pred)
        }
        Node::Join(a, b, pred) => {
            let left = printed(alloc, task, a.get(), Place::Among, number)?;
            let right = printed(alloc, task, b.get(), Place::Among, left.next)?;
            pair_placed(
                alloc,
                task,
                place,
                Pairing::Join,
                b.get(),
                pred,
                left,
                right,
            )
        }
        Node::Left(a, b, pred) => {
            let left = printed(alloc, task, a.get(), Place::Among, number)?;
            let right = printed(alloc, task, b.get(), Place::Among, left.next)?;
            pair_placed(
                alloc,
                task,
                place,
                Pairing::Left,
                b.get(),
                pred,
                left,
                right,
            )
        }
        Node::Group(child, keys, agg) => {
            let part = printed(alloc, task, child.get(), Place::AfterFrom, number)?;
            group_placed(alloc, place, keys.as_slice(), agg, part)
        }
        Node::UnionAll(a, b) => {
            let left = printed(alloc, task, a.get(), Place::AfterFrom, number)?;
            let right = printed(alloc, task, b.get(), Place::AfterFrom, left.next)?;
            union_placed(alloc, place, Uniting::All, left, right)
        }
        Node::Union(a, b) => {
            let left = printed(alloc, task, a.get(), Place::AfterFrom, number)?;
            let right = printed(alloc, task, b.get(), Place::AfterFrom, left.next)?;
            union_placed(alloc, place, Uniting::Firsts, left, right)
        }
    }
}

// A tree after `FROM`, with aliases from this number on.
pub fn from(
    alloc: Global,
    task: &TaskParts,
    node: &Node,
    number: u64,
) -> Result<Printed, OutOfMemory>
    ensures { IfOk result (λ part. part ≡ from task.now (tree node.now) number) }
{
    printed(alloc, task, node, Place::AfterFrom, number)
}
