ghost use Rattle.std.specs.Prelude.{◌≡◌, ◌+◌, ◌<◌, nat_le, length, IfOk, MatchOption};
ghost use Rattle.predicate_core.specs.Equal.{atoms_of};
ghost use Rattle.query_core.specs.View.{tree};
ghost use Rattle.query_core.specs.Grammar.{leaves};
ghost use Rattle.query_core.specs.Skeleton.{operators};
ghost use Rattle.query_core.specs.Membership.{each_node, atoms_few};

use crate::node::Node;
use predicate_core::{Pred, atom_count};
use sqlite_items::Items;
use std::alloc::Global;
use table_core::TaskParts;
use value_core::{OutOfMemory, concatenated, copied};

// The table numbers of a tree's leaves, from left to right.
pub(crate) fn leaves(alloc: Global, node: &Node) -> Result<Items<u32>, OutOfMemory>
    ensures { IfOk result (λ tables. tables ≡ leaves (tree node.now)) }
{
    match node {
        Node::Base(table) => copied(alloc, &[*table]),
        Node::Filter(child, _) | Node::Group(child, _, _) => leaves(alloc, child.get()),
        Node::Join(a, b, _) | Node::Left(a, b, _) | Node::UnionAll(a, b) | Node::Union(a, b) => {
            let lefts = leaves(alloc, a.get())?;
            let rights = leaves(alloc, b.get())?;
            concatenated(alloc, lefts.as_slice(), rights.as_slice())
        }
    }
}

// One less, where there is one.
fn less_one(limit: u32) -> Option<u32>
    ensures { MatchOption result (limit ≡ 0) (λ left. left + 1 ≡ limit) }
{
    limit.checked_sub(1)
}

// How many operators of so many are left over by a tree, none where it has more.
fn operators_left(node: &Node, limit: u32) -> Option<u32>
    ensures { MatchOption result (limit < operators (tree node.now)) (λ left. left + operators (tree node.now) ≡ limit) }
{
    match node {
        Node::Base(_) => Some(limit),
        Node::Filter(child, _) | Node::Group(child, _, _) => {
            less_one(operators_left(child.get(), limit)?)
        }
        Node::Join(a, b, _) | Node::Left(a, b, _) | Node::UnionAll(a, b) | Node::Union(a, b) => {
            let left = operators_left(a.get(), limit)?;
            less_one(operators_left(b.get(), left)?)
        }
    }
}

// Whether a tree has no more operators than the task allows.
pub(crate) fn has_few_operators(task: &TaskParts, node: &Node) -> bool
    ensures { result ≡ nat_le (operators (tree node.now)) task.now.ops }
{
    operators_left(node, task.ops).is_some()
}

// Whether a tree has no more leaves than the task allows.
pub(crate) fn has_few_leaves(
    alloc: Global,
    task: &TaskParts,
    node: &Node,
) -> Result<bool, OutOfMemory>
    ensures { IfOk result (λ ok. ok ≡ nat_le (length (leaves (tree node.now))) task.now.leaves) }
{
    let tables = leaves(alloc, node)?;
    Ok(tables.len() <= task.leaves as usize)
}

// Whether a predicate has no more atoms than the task allows.
fn pred_is_short(task: &TaskParts, pred: &Pred) -> bool
    ensures { result ≡ nat_le (length (atoms_of pred.now)) task.now.atoms }
{
    atom_count(pred) <= task.atoms as usize
}

// Whether each predicate of a tree has no more atoms than the task allows.
pub(crate) fn has_few_atoms(task: &TaskParts, node: &Node) -> bool
    ensures { result ≡ each_node (atoms_few task.now) (tree node.now) }
{
    match node {
        Node::Base(_) => true,
        Node::Filter(child, pred) => {
            has_few_atoms(task, child.get()) && pred_is_short(task, pred)
        }
        Node::Join(a, b, pred) | Node::Left(a, b, pred) => {
            has_few_atoms(task, a.get())
                && has_few_atoms(task, b.get())
                && pred_is_short(task, pred)
        }
        Node::Group(child, _, _) => has_few_atoms(task, child.get()),
        Node::UnionAll(a, b) | Node::Union(a, b) => {
            has_few_atoms(task, a.get()) && has_few_atoms(task, b.get())
        }
    }
}
