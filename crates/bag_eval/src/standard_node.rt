ghost use Rattle.std.specs.Prelude.{◌≡◌, IfOk};
ghost use Rattle.query_core.specs.Tree as t;
ghost use Rattle.query_core.specs.View.{tree};
ghost use Rattle.query_core.specs.Joins.{crossed};
ghost use Rattle.query_core.specs.Meaning.{hole_types};
ghost use Rattle.query_core.specs.Standard.{rows_or_none, first_of, std_filter, std_pair, std};

use crate::alike::{Chooser, first_alike};
use crate::filter::keeps_all_rows;
use crate::join::cross_rows;
use crate::tree_rows::node_rows;
use predicate_core::{Pred, atoms};
use query_core::{Agg, Node, Pairing, Uniting, node_types};
use sqlite_items::{Boxed, Items};
use std::alloc::Global;
use table_core::{TaskParts, Tuple};
use value_core::{ColType, OutOfMemory, concatenated, copied};

// The rows of a tree, none where a sum in it leaves 64 bits.
fn rows_or_none(alloc: Global, task: &TaskParts, node: &Node) -> Result<Items<Tuple>, OutOfMemory>
    ensures { IfOk result (λ rows. rows ≡ rows_or_none task.now (tree node.now)) }
{
    let (inputs, constants) = (task.inputs.as_slice(), task.constants.as_slice());
    match node_rows(alloc, inputs, constants, node)? {
        Some(rows) => Ok(rows),
        None => Ok(Items::new(alloc)),
    }
}

// The first predicate over columns of these types that keeps the same of these rows.
fn first_of(
    alloc: Global,
    task: &TaskParts,
    types: &[ColType],
    rows: &[Tuple],
    pred: &Pred,
) -> Result<Pred, OutOfMemory>
    ensures { IfOk result (λ p. p ≡ first_of task.now types.now rows.now pred.now) }
{
    let constants = task.constants.as_slice();
    let atoms = atoms(alloc, types, constants)?;
    let chooser = Chooser {
        constants,
        rows,
        pred,
    };
    Ok(first_alike(&chooser, atoms.as_slice(), task.atoms))
}

// The filter over a standard tree, with the first of the predicates alike; the tree alone where it keeps all its rows.
fn filter_of(alloc: Global, task: &TaskParts, child: Node, pred: &Pred) -> Result<Node, OutOfMemory>
    ensures { IfOk result (λ n. tree n ≡ std_filter task.now (tree child) pred.now) }
{
    let rows = rows_or_none(alloc, task, &child)?;
    if keeps_all_rows(task.constants.as_slice(), rows.as_slice(), pred) {
        return Ok(child);
    }
    let types = node_types(alloc, task.inputs.as_slice(), &child)?;
    let first = first_of(alloc, task, types.as_slice(), rows.as_slice(), pred)?;
    Ok(Node::Filter(Boxed::new(alloc, child)?, first))
}

// The first predicate that keeps the same of all pairs of rows of two trees.
fn pair_first(
    alloc: Global,
    task: &TaskParts,
    a: &Node,
    b: &Node,
    pred: &Pred,
) -> Result<Pred, OutOfMemory>
    ensures { IfOk result (λ p. p ≡ first_of task.now (hole_types task.now.inputs (tree a.now) (tree b.now)) (crossed (rows_or_none task.now (tree a.now)) (rows_or_none task.now (tree b.now))) pred.now) }
{
    let left_types = node_types(alloc, task.inputs.as_slice(), a)?;
    let right_types = node_types(alloc, task.inputs.as_slice(), b)?;
    let types = concatenated(alloc, left_types.as_slice(), right_types.as_slice())?;
    let lefts = rows_or_none(alloc, task, a)?;
    let rights = rows_or_none(alloc, task, b)?;
    let pairs = cross_rows(alloc, lefts.as_slice(), rights.as_slice())?;
    first_of(alloc, task, types.as_slice(), pairs.as_slice(), pred)
}

// Two trees paired.
fn paired(alloc: Global, kind: Pairing, a: Node, b: Node, pred: Pred) -> Result<Node, OutOfMemory>
    ensures { IfOk result (λ n. tree n ≡ t.pair kind (tree a) (tree b) pred) }
{
    let a = Boxed::new(alloc, a)?;
    let b = Boxed::new(alloc, b)?;
    Ok(Node::pair(kind, a, b, pred))
}

// The join of two standard trees, with the first of the predicates alike.
fn join_of(
    alloc: Global,
    task: &TaskParts,
    a: Node,
    b: Node,
    pred: &Pred,
) -> Result<Node, OutOfMemory>
    ensures { IfOk result (λ n. tree n ≡ std_pair task.now Pairing.Join (tree a) (tree b) pred.now) }
{
    let first = pair_first(alloc, task, &a, &b, pred)?;
    paired(alloc, Pairing::Join, a, b, first)
}

// The left join of two standard trees, with the first of the predicates alike.
fn left_of(
    alloc: Global,
    task: &TaskParts,
    a: Node,
    b: Node,
    pred: &Pred,
) -> Result<Node, OutOfMemory>
    ensures { IfOk result (λ n. tree n ≡ std_pair task.now Pairing.Left (tree a) (tree b) pred.now) }
{
    let first = pair_first(alloc, task, &a, &b, pred)?;
    paired(alloc, Pairing::Left, a, b, first)
}

// The group over a tree.
fn group_of(alloc: Global, child: Node, keys: &[usize], agg: &Agg) -> Result<Node, OutOfMemory>
    ensures { IfOk result (λ n. tree n ≡ t.group (tree child) keys.now agg.now) }
{
    let child = Boxed::new(alloc, child)?;
    Ok(Node::Group(child, copied(alloc, keys)?, *agg))
}

// Two trees united.
fn united(alloc: Global, kind: Uniting, a: Node, b: Node) -> Result<Node, OutOfMemory>
    ensures { IfOk result (λ n. tree n ≡ t.unite kind (tree a) (tree b)) }
{
    let a = Boxed::new(alloc, a)?;
    let b = Boxed::new(alloc, b)?;
    Ok(Node::unite(kind, a, b))
}

// The standard form of a tree.
pub(crate) fn standard_node(
    alloc: Global,
    task: &TaskParts,
    node: &Node,
) -> Result<Node, OutOfMemory>
    ensures { IfOk result (λ n. tree n ≡ std task.now (tree node.now)) }
{
    match node {
        Node::Base(table) => Ok(Node::Base(*table)),
        Node::Filter(child, pred) => {
            let child = standard_node(alloc, task, child.get())?;
            filter_of(alloc, task, child, pred)
        }
        Node::Join(a, b, pred) => {
            let a = standard_node(alloc, task, a.get())?;
            let b = standard_node(alloc, task, b.get())?;
            join_of(alloc, task, a, b, pred)
        }
        Node::Left(a, b, pred) => {
            let a = standard_node(alloc, task, a.get())?;
            let b = standard_node(alloc, task, b.get())?;
            left_of(alloc, task, a, b, pred)
        }
        Node::Group(child, keys, agg) => {
            let child = standard_node(alloc, task, child.get())?;
            group_of(alloc, child, keys.as_slice(), agg)
        }
        Node::UnionAll(a, b) => {
            let a = standard_node(alloc, task, a.get())?;
            let b = standard_node(alloc, task, b.get())?;
            united(alloc, Uniting::All, a, b)
        }
        Node::Union(a, b) => {
            let a = standard_node(alloc, task, a.get())?;
            let b = standard_node(alloc, task, b.get())?;
            united(alloc, Uniting::Firsts, a, b)
        }
    }
}
