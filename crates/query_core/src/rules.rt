ghost use Rattle.std.specs.Prelude.{◌≡◌, ◌&&◌, ◌==◌, not, IfOk};
ghost use Rattle.std.specs.List.{list_any};
ghost use Rattle.query_core.specs.View.{tree};
ghost use Rattle.query_core.specs.Grammar.{takes_filter, in_order};
ghost use Rattle.query_core.specs.Skeleton.{is_open, is_no_key};
ghost use Rattle.query_core.specs.Membership.{each_node, filter_placed, filter_asks, parts_ordered, are_few_ascending, keys_ascend, agg_is_no_key, agg_apart, allows, agg_allowed, atoms_in_order};

use crate::agg::Agg;
use crate::atom_order::pred_in_order;
use crate::node::Node;
use crate::sizes::leaves;
use predicate_core::Pred;
use std::alloc::Global;
use table_core::{AggSet, TaskParts};
use value_core::OutOfMemory;

// Whether a filter may stand over a tree.
fn takes_filter(node: &Node) -> bool
    ensures { result ≡ takes_filter (tree node.now) }
{
    !matches!(node, Node::Filter(..) | Node::Join(..))
}

// Whether no filter of a tree stands over a filter or a join.
pub(crate) fn filters_are_placed(node: &Node) -> bool
    ensures { result ≡ each_node filter_placed (tree node.now) }
{
    match node {
        Node::Base(_) => true,
        Node::Filter(child, _) => filters_are_placed(child.get()) && takes_filter(child.get()),
        Node::Group(child, _, _) => filters_are_placed(child.get()),
        Node::Join(a, b, _) | Node::Left(a, b, _) | Node::UnionAll(a, b) | Node::Union(a, b) => {
            filters_are_placed(a.get()) && filters_are_placed(b.get())
        }
    }
}

// Whether a predicate is Always.
fn is_open(pred: &Pred) -> bool
    ensures { result ≡ is_open pred.now }
{
    matches!(pred, Pred::Always)
}

// Whether no filter of a tree has the predicate Always.
pub(crate) fn filters_ask(node: &Node) -> bool
    ensures { result ≡ each_node filter_asks (tree node.now) }
{
    match node {
        Node::Base(_) => true,
        Node::Filter(child, pred) => filters_ask(child.get()) && !is_open(pred),
        Node::Group(child, _, _) => filters_ask(child.get()),
        Node::Join(a, b, _) | Node::Left(a, b, _) | Node::UnionAll(a, b) | Node::Union(a, b) => {
            filters_ask(a.get()) && filters_ask(b.get())
        }
    }
}

// Whether the leaves of a tree don't come after another's.
fn in_order(alloc: Global, a: &Node, b: &Node) -> Result<bool, OutOfMemory>
    ensures { IfOk result (λ ok. ok ≡ in_order (tree a.now, tree b.now)) }
{
    let lefts = leaves(alloc, a)?;
    let rights = leaves(alloc, b)?;
    Ok(!lefts.as_slice().cmp(rights.as_slice()).is_gt())
}

// Whether the parts of each join and of each union stand in the order of their leaves.
pub(crate) fn parts_are_ordered(alloc: Global, node: &Node) -> Result<bool, OutOfMemory>
    ensures { IfOk result (λ ok. ok ≡ each_node parts_ordered (tree node.now)) }
{
    match node {
        Node::Base(_) => Ok(true),
        Node::Filter(child, _) | Node::Group(child, _, _) => parts_are_ordered(alloc, child.get()),
        Node::Left(a, b, _) => {
            if !parts_are_ordered(alloc, a.get())? {
                return Ok(false);
            }
            parts_are_ordered(alloc, b.get())
        }
        Node::Join(a, b, _) | Node::UnionAll(a, b) | Node::Union(a, b) => {
            if !parts_are_ordered(alloc, a.get())? {
                return Ok(false);
            }
            if !parts_are_ordered(alloc, b.get())? {
                return Ok(false);
            }
            in_order(alloc, a.get(), b.get())
        }
    }
}

// Whether there are at most two keys, ascending.
fn are_few_ascending(keys: &[usize]) -> bool
    ensures { result ≡ are_few_ascending keys.now }
{
    match keys {
        [] | [_] => true,
        [i, j] => i < j,
        _ => false,
    }
}

// Whether each group of a tree has at most two keys, ascending.
pub(crate) fn keys_ascend(node: &Node) -> bool
    ensures { result ≡ each_node keys_ascend (tree node.now) }
{
    match node {
        Node::Base(_) => true,
        Node::Filter(child, _) => keys_ascend(child.get()),
        Node::Group(child, keys, _) => {
            keys_ascend(child.get()) && are_few_ascending(keys.as_slice())
        }
        Node::Join(a, b, _) | Node::Left(a, b, _) | Node::UnionAll(a, b) | Node::Union(a, b) => {
            keys_ascend(a.get()) && keys_ascend(b.get())
        }
    }
}

// Whether a column is one of these keys.
fn is_key(keys: &[usize], column: usize) -> bool
    ensures { result ≡ list_any (λ k. k == column) keys.now }
{
    keys.iter().any(|key| *key == column)
}

// Whether a column is none of these keys.
fn is_no_key(keys: &[usize], column: usize) -> bool
    ensures { result ≡ is_no_key keys.now column }
{
    !is_key(keys, column)
}

// Whether an aggregate's column is none of these keys.
fn agg_is_no_key(keys: &[usize], agg: &Agg) -> bool
    ensures { result ≡ agg_is_no_key keys.now agg.now }
{
    match *agg {
        Agg::CountAll => true,
        Agg::Count(at) | Agg::CountDistinct(at) | Agg::Sum(at) | Agg::Min(at) | Agg::Max(at) => {
            is_no_key(keys, at)
        }
    }
}

// Whether each aggregate of a tree is over none of its group's keys.
pub(crate) fn aggregates_are_apart(node: &Node) -> bool
    ensures { result ≡ each_node agg_apart (tree node.now) }
{
    match node {
        Node::Base(_) => true,
        Node::Filter(child, _) => aggregates_are_apart(child.get()),
        Node::Group(child, keys, agg) => {
            aggregates_are_apart(child.get()) && agg_is_no_key(keys.as_slice(), agg)
        }
        Node::Join(a, b, _) | Node::Left(a, b, _) | Node::UnionAll(a, b) | Node::Union(a, b) => {
            aggregates_are_apart(a.get()) && aggregates_are_apart(b.get())
        }
    }
}

// Whether a set has the kind of an aggregate.
fn allows(set: AggSet, agg: &Agg) -> bool
    ensures { result ≡ allows set agg.now }
{
    match *agg {
        Agg::CountAll => set.count_all,
        Agg::Count(_) => set.count,
        Agg::CountDistinct(_) => set.count_distinct,
        Agg::Sum(_) => set.sum,
        Agg::Min(_) => set.min,
        Agg::Max(_) => set.max,
    }
}

// Whether the task allows each aggregate of a tree.
pub(crate) fn aggregates_are_allowed(task: &TaskParts, node: &Node) -> bool
    ensures { result ≡ each_node (agg_allowed task.now) (tree node.now) }
{
    match node {
        Node::Base(_) => true,
        Node::Filter(child, _) => aggregates_are_allowed(task, child.get()),
        Node::Group(child, _, agg) => {
            aggregates_are_allowed(task, child.get()) && allows(task.aggregates, agg)
        }
        Node::Join(a, b, _) | Node::Left(a, b, _) | Node::UnionAll(a, b) | Node::Union(a, b) => {
            aggregates_are_allowed(task, a.get()) && aggregates_are_allowed(task, b.get())
        }
    }
}

// Whether the atoms of each predicate of a tree are in order.
pub(crate) fn atoms_are_in_order(node: &Node) -> bool
    ensures { result ≡ each_node atoms_in_order (tree node.now) }
{
    match node {
        Node::Base(_) => true,
        Node::Filter(child, pred) => atoms_are_in_order(child.get()) && pred_in_order(pred),
        Node::Join(a, b, pred) | Node::Left(a, b, pred) => {
            atoms_are_in_order(a.get()) && atoms_are_in_order(b.get()) && pred_in_order(pred)
        }
        Node::Group(child, _, _) => atoms_are_in_order(child.get()),
        Node::UnionAll(a, b) | Node::Union(a, b) => {
            atoms_are_in_order(a.get()) && atoms_are_in_order(b.get())
        }
    }
}
