ghost use Rattle.std.specs.Prelude.{◌≡◌, option_copied, IfOk};
ghost use Rattle.query_core.specs.View.{tree};
ghost use Rattle.over_eval.specs.Over.{has_hole, over};
ghost use Rattle.over_eval.specs.Parts.{AreOversOf};

use crate::below::{OverBelow, OverParts};
use crate::part_over::{base_over, copied_part, exact, grouped, paired, united};
use crate::row::AbsRow;
use query_core::{Node, Pairing, node_types};
use sqlite_items::Items;
use std::alloc::Global;
use table_core::TaskParts;
use value_core::OutOfMemory;

/// Whether a tree has a hole: a place of a predicate. It takes no memory.
pub fn has_hole(node: &Node) -> bool
    ensures { result ≡ has_hole (tree node.now) }
{
    match node {
        Node::Base(_) => false,
        Node::Filter(..) | Node::Join(..) | Node::Left(..) => true,
        Node::Group(child, _, _) => has_hole(child.get()),
        Node::UnionAll(a, b) | Node::Union(a, b) => has_hole(a.get()) || has_hole(b.get()),
    }
}

/// The abstract rows of a skeleton over those of its parts; none at all where it never has rows.
pub fn over_node(
    alloc: Global,
    task: &TaskParts,
    node: &Node,
    below: &OverBelow<'_>,
) -> Result<Option<Items<AbsRow>>, OutOfMemory>
    requires { AreOversOf task.now (tree node.now) (option_copied below.now.left) (option_copied below.now.right) }
    ensures { IfOk result (λ out. out ≡ over task.now (tree node.now)) }
{
    let inputs = task.inputs.as_slice();
    match node {
        Node::Base(table) => Ok(Some(base_over(alloc, inputs, *table as usize)?)),
        Node::Filter(_, _) => copied_part(alloc, below),
        Node::Join(_, b, _) => {
            let width = node_types(alloc, inputs, b.get())?.len();
            paired(alloc, Pairing::Join, width, below)
        }
        Node::Left(_, b, _) => {
            let width = node_types(alloc, inputs, b.get())?.len();
            paired(alloc, Pairing::Left, width, below)
        }
        Node::Group(child, keys, agg) => {
            if !has_hole(child.get()) {
                return exact(alloc, task, node);
            }
            grouped(alloc, keys.as_slice(), agg, below)
        }
        Node::UnionAll(_, _) | Node::Union(_, _) => {
            if !has_hole(node) {
                return exact(alloc, task, node);
            }
            united(alloc, below)
        }
    }
}

// The abstract rows of a skeleton's parts.
#[cycle(over)]
fn parts_over(alloc: Global, task: &TaskParts, node: &Node) -> Result<OverParts, OutOfMemory>
    ensures { IfOk result (λ parts. AreOversOf task.now (tree node.now) parts.left parts.right) }
{
    match node {
        Node::Base(_) => Ok(OverParts::none()),
        Node::Filter(child, _) => Ok(OverParts::one(over(alloc, task, child.get())?)),
        Node::Group(child, _, _) => Ok(OverParts::one(over(alloc, task, child.get())?)),
        Node::Join(a, b, _) | Node::Left(a, b, _) => {
            let left = over(alloc, task, a.get())?;
            let right = over(alloc, task, b.get())?;
            Ok(OverParts { left, right })
        }
        Node::UnionAll(a, b) | Node::Union(a, b) => {
            let left = over(alloc, task, a.get())?;
            let right = over(alloc, task, b.get())?;
            Ok(OverParts { left, right })
        }
    }
}

/// The abstract rows of a skeleton; none at all where it never has rows, as where a sum without holes below leaves 64 bits. No predicate is read.
#[cycle(over)]
pub fn over(
    alloc: Global,
    task: &TaskParts,
    node: &Node,
) -> Result<Option<Items<AbsRow>>, OutOfMemory>
    ensures { IfOk result (λ out. out ≡ over task.now (tree node.now)) }
{
    let parts = parts_over(alloc, task, node)?;
    over_node(alloc, task, node, &parts.below())
}
