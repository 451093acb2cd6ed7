ghost use Rattle.std.specs.Prelude.{◌≡◌, ℕ, ◌<◌, ◌==◌, ◌&&◌, Some, length, slice_get};
ghost use Rattle.std.specs.Cmp.Lexicographic.{pointwise};
ghost use Rattle.predicate_core.specs.Equal.{same_pred};
ghost use Rattle.predicate_core.specs.declared.pred.Pred.TheVariants.{Always};
ghost use Rattle.table_core.specs.Bag.{same_cells};
ghost use Rattle.query_core.specs.View.{tree};
ghost use Rattle.skeleton_graph.specs.Below.{same_agg, same_tree};
ghost use Rattle.skeleton_graph.specs.Nodes.{child_tree, node_tree, tree_at, trees_of};
ghost use Rattle.fill_core.specs.Fits.{same_column, same_table, same_input, same_inputs, same_source};

use predicate_core::{Pred, same_pred};
use query_core::{Agg, Node, same_type};
use skeleton_graph::{Graph, Kind, SkelNode};
use table_core::{Column, Table, TaskParts, Tuple, same_cells};

// Whether two columns have the same name and the same type.
fn same_column(a: &Column, b: &Column) -> bool
    ensures { result ≡ same_column a.now b.now }
{
    a.name.as_slice() == b.name.as_slice() && same_type(a.kind, b.kind)
}

// Whether two lists of columns are the same.
fn same_columns(a: &[Column], b: &[Column]) -> bool
    ensures { result ≡ pointwise same_column a.now b.now }
{
    if a.len() != b.len() {
        return false;
    }
    for i in 0..a.len() {
        if !same_column(&a[i], &b[i]) {
            return false;
        }
    }
    true
}

// Whether two lists of rows are the same, in order.
fn same_tuples(a: &[Tuple], b: &[Tuple]) -> bool
    ensures { result ≡ pointwise same_cells a.now b.now }
{
    if a.len() != b.len() {
        return false;
    }
    for i in 0..a.len() {
        if !same_cells(a[i].cells(), b[i].cells()) {
            return false;
        }
    }
    true
}

// Whether two tables have the same columns and the same rows, in order.
fn same_table(a: &Table, b: &Table) -> bool
    ensures { result ≡ same_table a.now b.now }
{
    same_columns(a.columns(), b.columns()) && same_tuples(a.tuples(), b.tuples())
}

// Whether the input of a number is the same among these and those.
fn same_input(these: &[Table], those: &[Table], at: usize) -> bool
    ensures { result ≡ same_input (slice_get these.now at) (slice_get those.now at) }
{
    match (these.get(at), those.get(at)) {
        (Some(a), Some(b)) => same_table(a, b),
        (None, None) => true,
        (Some(_), None) | (None, Some(_)) => false,
    }
}

// Whether each input that a skeleton reads is the same among these and those.
fn same_inputs(these: &[Table], those: &[Table], skeleton: &Node) -> bool
    ensures { result ≡ same_inputs these.now those.now (tree skeleton.now) }
{
    match skeleton {
        Node::Base(table) => same_input(these, those, *table as usize),
        Node::Filter(child, _) | Node::Group(child, _, _) => {
            same_inputs(these, those, child.get())
        }
        Node::Join(a, b, _) | Node::Left(a, b, _) => {
            same_inputs(these, those, a.get()) && same_inputs(these, those, b.get())
        }
        Node::UnionAll(a, b) | Node::Union(a, b) => {
            same_inputs(these, those, a.get()) && same_inputs(these, those, b.get())
        }
    }
}

/// Whether two tasks are the same for a skeleton: in the inputs that it reads, the constants and the bound on atoms.
pub(crate) fn same_source(this: &TaskParts, that: &TaskParts, skeleton: &Node) -> bool
    ensures { result ≡ same_source this.now that.now (tree skeleton.now) }
{
    if !same_inputs(this.inputs.as_slice(), that.inputs.as_slice(), skeleton) {
        return false;
    }
    same_cells(this.constants.as_slice(), that.constants.as_slice()) && this.atoms == that.atoms
}

// Whether two aggregates are the same.
fn same_agg(a: &Agg, b: &Agg) -> bool
    ensures { result ≡ same_agg a.now b.now }
{
    match (*a, *b) {
        (Agg::CountAll, Agg::CountAll) => true,
        (Agg::Count(i), Agg::Count(j)) => i == j,
        (Agg::CountDistinct(i), Agg::CountDistinct(j)) => i == j,
        (Agg::Sum(i), Agg::Sum(j)) => i == j,
        (Agg::Min(i), Agg::Min(j)) => i == j,
        (Agg::Max(i), Agg::Max(j)) => i == j,
        _ => false,
    }
}

// Whether a predicate is open.
fn is_open(pred: &Pred) -> bool
    ensures { result ≡ same_pred pred.now Always }
{
    same_pred(pred, &Pred::Always)
}

// Whether a tree is the one of a node over its children.
#[cycle(same)]
fn same_made(skeleton: &Node, graph: &Graph, node: &SkelNode) -> bool
    requires lefts { (k : ℕ) → node.now.left ≡ Some k → k < length graph.now.nodes }
    requires rights { (k : ℕ) → node.now.right ≡ Some k → k < length graph.now.nodes }
    ensures { result ≡ same_tree (tree skeleton.now) (node_tree (trees_of graph.now.nodes) node.now) }
{
    match (skeleton, &node.kind) {
        (Node::Base(table), Kind::Base(other)) => *table == *other,
        (Node::Filter(child, pred), Kind::Filter) => {
            same_child(child.get(), graph, node.left) && is_open(pred)
        }
        (Node::Join(a, b, pred), Kind::Join) | (Node::Left(a, b, pred), Kind::Left) => {
            let lefts = same_child(a.get(), graph, node.left);
            lefts && same_child(b.get(), graph, node.right) && is_open(pred)
        }
        (Node::Group(child, keys, agg), Kind::Group(others, other)) => {
            let alike = keys.as_slice() == others.as_slice() && same_agg(agg, other);
            same_child(child.get(), graph, node.left) && alike
        }
        (Node::UnionAll(a, b), Kind::UnionAll) | (Node::Union(a, b), Kind::Union) => {
            same_child(a.get(), graph, node.left) && same_child(b.get(), graph, node.right)
        }
        _ => false,
    }
}

// Whether a tree is the one of a child, an input where there is none.
#[cycle(same)]
fn same_child(skeleton: &Node, graph: &Graph, child: Option<u32>) -> bool
    requires { (k : ℕ) → child ≡ Some k → k < length graph.now.nodes }
    ensures { result ≡ same_tree (tree skeleton.now) (child_tree (trees_of graph.now.nodes) child) }
{
    graph.is_ordered();
    match child {
        Some(k) => same_made(skeleton, graph, graph.node(k)),
        None => match skeleton {
            Node::Base(table) => *table == 0,
            _ => false,
        },
    }
}

/// Whether a tree is the one of a node.
pub(crate) fn same_skeleton(skeleton: &Node, graph: &Graph, k: u32) -> bool
    requires { k < length graph.now.nodes }
    ensures { result ≡ same_tree (tree skeleton.now) (tree_at (trees_of graph.now.nodes) k) }
{
    same_child(skeleton, graph, Some(k))
}
