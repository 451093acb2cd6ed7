ghost use Rattle.std.specs.Prelude.{◌≡◌, ℕ, ◌<◌, Some, length, IfOk};
ghost use Rattle.predicate_core.specs.declared.pred.Pred.TheVariants.{Always};
ghost use Rattle.query_core.specs.Tree as t;
ghost use Rattle.query_core.specs.View.{tree};
ghost use Rattle.skeleton_graph.specs.Nodes.{kind_tree, child_tree, tree_at, trees_of, left_of, right_of};
ghost use Rattle.skeleton_graph.specs.GraphData.{Descends};

use crate::node::{Kind, SkelNode};
use predicate_core::Pred;
use query_core::{Agg, Node, Pairing, Uniting};
use sqlite_items::Boxed;
use std::alloc::Global;
use value_core::{OutOfMemory, copied};

// The filter over a tree, its predicate open.
fn filter(alloc: Global, a: Node) -> Result<Node, OutOfMemory>
    ensures { IfOk result (λ n. tree n ≡ t.filter (tree a) Always) }
{
    Ok(Node::Filter(Boxed::new(alloc, a)?, Pred::Always))
}

// Two trees paired, their predicate open.
fn pair(alloc: Global, kind: Pairing, a: Node, b: Node) -> Result<Node, OutOfMemory>
    ensures { IfOk result (λ n. tree n ≡ t.pair kind (tree a) (tree b) Always) }
{
    let a = Boxed::new(alloc, a)?;
    let b = Boxed::new(alloc, b)?;
    Ok(Node::pair(kind, a, b, Pred::Always))
}

// Two trees united.
fn unite(alloc: Global, kind: Uniting, a: Node, b: Node) -> Result<Node, OutOfMemory>
    ensures { IfOk result (λ n. tree n ≡ t.unite kind (tree a) (tree b)) }
{
    let a = Boxed::new(alloc, a)?;
    let b = Boxed::new(alloc, b)?;
    Ok(Node::unite(kind, a, b))
}

// The group over a tree.
fn group(alloc: Global, a: Node, keys: &[usize], agg: Agg) -> Result<Node, OutOfMemory>
    ensures { IfOk result (λ n. tree n ≡ t.group (tree a) keys.now agg) }
{
    let a = Boxed::new(alloc, a)?;
    Ok(Node::Group(a, copied(alloc, keys)?, agg))
}

// The tree of a kind over two trees.
fn made(alloc: Global, kind: &Kind, a: Node, b: Node) -> Result<Node, OutOfMemory>
    ensures { IfOk result (λ n. tree n ≡ kind_tree kind.now (tree a) (tree b)) }
{
    match kind {
        Kind::Base(table) => Ok(Node::Base(*table)),
        Kind::Filter => filter(alloc, a),
        Kind::Join => pair(alloc, Pairing::Join, a, b),
        Kind::Left => pair(alloc, Pairing::Left, a, b),
        Kind::Group(keys, agg) => group(alloc, a, keys.as_slice(), *agg),
        Kind::UnionAll => unite(alloc, Uniting::All, a, b),
        Kind::Union => unite(alloc, Uniting::Firsts, a, b),
    }
}

// The tree of a child, an input where there is none.
#[cycle(tree)]
fn child_at(alloc: Global, nodes: &[SkelNode], child: Option<u32>) -> Result<Node, OutOfMemory>
    requires below { (k : ℕ) → child ≡ Some k → k < length nodes.now }
    requires lefts { Descends (left_of nodes.now) }
    requires rights { Descends (right_of nodes.now) }
    ensures { IfOk result (λ n. tree n ≡ child_tree (trees_of nodes.now) child) }
{
    match child {
        Some(k) => node_at(alloc, nodes, k),
        None => Ok(Node::Base(0)),
    }
}

/// The tree of a node, its predicates open.
#[cycle(tree)]
pub fn node_at(alloc: Global, nodes: &[SkelNode], k: u32) -> Result<Node, OutOfMemory>
    requires below { k < length nodes.now }
    requires lefts { Descends (left_of nodes.now) }
    requires rights { Descends (right_of nodes.now) }
    ensures { IfOk result (λ n. tree n ≡ tree_at (trees_of nodes.now) k) }
{
    let node = &nodes[k as usize];
    let left = child_at(alloc, nodes, node.left)?;
    let right = child_at(alloc, nodes, node.right)?;
    made(alloc, &node.kind, left, right)
}
