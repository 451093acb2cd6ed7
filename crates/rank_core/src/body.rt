ghost use Rattle.std.specs.Prelude.{◌≡◌, ◌<◌, ◌^◌, not, count_by};
ghost use Rattle.std.specs.List.{list_any, range_with_len};
ghost use Rattle.predicate_core.specs.Equal.{uses_constant};
ghost use Rattle.query_core.specs.Rank.{tree_atoms, tree_cost, unused_constants};
ghost use Rattle.query_core.specs.View.{tree};

use predicate_core::{atom_count, has_constant};
use query_core::Node;
use table_core::TaskParts;

// Whether a tree compares with the constant of this number.
#[tactic(auto, using(crate::proofs::BodyLaws::any_of_both))]
fn uses_constant(node: &Node, number: usize) -> bool
    ensures { result ≡ list_any (uses_constant number) (tree_atoms (tree node.now)) }
{
    match node {
        Node::Base(_) => false,
        Node::Filter(child, pred) => {
            uses_constant(child.get(), number) || has_constant(pred, number)
        }
        Node::Join(a, b, pred) | Node::Left(a, b, pred) => {
            let by_parts = uses_constant(a.get(), number) || uses_constant(b.get(), number);
            by_parts || has_constant(pred, number)
        }
        Node::Group(child, _, _) => uses_constant(child.get(), number),
        Node::UnionAll(a, b) | Node::Union(a, b) => {
            uses_constant(a.get(), number) || uses_constant(b.get(), number)
        }
    }
}

/// How many of the task's constants stand in no atom of a tree.
pub fn unused_constants(task: &TaskParts, node: &Node) -> usize
    ensures { result ≡ unused_constants task.now (tree node.now) }
{
    (0..task.constants.len())
        .filter(|number| !uses_constant(node, *number))
        .count()
}

/// The cost of a tree, where it fits 64 bits.
pub fn tree_cost(node: &Node) -> u64
    requires { tree_cost (tree node.now) < 2 ^ 64 }
    ensures { result ≡ tree_cost (tree node.now) }
{
    match node {
        Node::Base(_) => 1,
        Node::Filter(child, pred) => tree_cost(child.get()) + 1 + atom_count(pred) as u64,
        Node::Join(a, b, pred) => {
            tree_cost(a.get()) + tree_cost(b.get()) + 2 + atom_count(pred) as u64
        }
        Node::Left(a, b, pred) => {
            tree_cost(a.get()) + tree_cost(b.get()) + 3 + atom_count(pred) as u64
        }
        Node::Group(child, _, _) => tree_cost(child.get()) + 3,
        Node::UnionAll(a, b) | Node::Union(a, b) => tree_cost(a.get()) + tree_cost(b.get()) + 3,
    }
}
