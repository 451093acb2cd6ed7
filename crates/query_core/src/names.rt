ghost use Rattle.std.specs.Prelude.{◌≡◌, ◌++◌, ◌&&◌, nat_lt, length, IfOk};
ghost use Rattle.std.specs.List.{list_all};
ghost use Rattle.predicate_core.specs.Equal.{atoms_of};
ghost use Rattle.query_core.specs.View.{tree};
ghost use Rattle.query_core.specs.Meaning.{columns, hole_types};
ghost use Rattle.query_core.specs.Columns.{names_inputs, atom_in_range, pred_in_range, agg_in_range, names_columns};

use crate::agg::Agg;
use crate::node::Node;
use crate::types::{hole_types, node_types};
use predicate_core::{Atom, Pred};
use std::alloc::Global;
use table_core::TaskParts;
use value_core::OutOfMemory;

/// Whether each leaf of a tree names an input.
pub fn names_inputs(task: &TaskParts, node: &Node) -> bool
    ensures { result ≡ names_inputs task.now (tree node.now) }
{
    match node {
        Node::Base(table) => (*table as usize) < task.inputs.len(),
        Node::Filter(child, _) | Node::Group(child, _, _) => names_inputs(task, child.get()),
        Node::Join(a, b, _) | Node::Left(a, b, _) | Node::UnionAll(a, b) | Node::Union(a, b) => {
            names_inputs(task, a.get()) && names_inputs(task, b.get())
        }
    }
}

// Whether the numbers of an atom are those of columns and constants, of which there are so many.
fn atom_in_range(width: usize, constants: usize, atom: Atom) -> bool
    ensures { result ≡ atom_in_range width constants atom }
{
    match atom {
        Atom::Cols(i, _, j) => i < width && j < width,
        Atom::Const(i, _, k) => i < width && k < constants,
        Atom::IsNull(i) | Atom::NotNull(i) => i < width,
    }
}

// Whether the numbers of a predicate are.
fn pred_in_range(width: usize, constants: usize, pred: &Pred) -> bool
    ensures { result ≡ pred_in_range width constants pred.now }
{
    let fits = |atom: Atom| atom_in_range(width, constants, atom);
    match *pred {
        Pred::Always => true,
        Pred::One(a) => fits(a),
        Pred::And2(a, b) | Pred::Or2(a, b) => fits(a) && fits(b),
        Pred::And3(a, b, c) | Pred::Or3(a, b, c) => fits(a) && fits(b) && fits(c),
    }
}

// Whether an aggregate's column is one of so many.
fn agg_in_range(width: usize, agg: &Agg) -> bool
    ensures { result ≡ agg_in_range width agg.now }
{
    match *agg {
        Agg::CountAll => true,
        Agg::Count(at) | Agg::CountDistinct(at) | Agg::Sum(at) | Agg::Min(at) | Agg::Max(at) => {
            at < width
        }
    }
}

// Whether these keys are among so many columns.
pub(crate) fn keys_in_range(width: usize, keys: &[usize]) -> bool
    ensures { result ≡ list_all (λ k. nat_lt k width) keys.now }
{
    keys.iter().all(|key| *key < width)
}

// Whether the keys and the aggregate's column of a group are among so many columns.
fn group_in_range(width: usize, keys: &[usize], agg: &Agg) -> bool
    ensures { result ≡ (list_all (λ k. nat_lt k width) keys.now && agg_in_range width agg.now) }
{
    keys_in_range(width, keys) && agg_in_range(width, agg)
}

// Whether the predicate of a join is in range.
fn pair_in_range(
    alloc: Global,
    task: &TaskParts,
    a: &Node,
    b: &Node,
    pred: &Pred,
) -> Result<bool, OutOfMemory>
    ensures { IfOk result (λ ok. ok ≡ pred_in_range (length (hole_types task.now.inputs (tree a.now) (tree b.now))) (length task.now.constants) pred.now) }
{
    let types = hole_types(alloc, task.inputs.as_slice(), a, b)?;
    Ok(pred_in_range(types.len(), task.constants.len(), pred))
}

/// Whether each column and constant that a tree names is there.
pub fn names_columns(alloc: Global, task: &TaskParts, node: &Node) -> Result<bool, OutOfMemory>
    ensures { IfOk result (λ ok. ok ≡ names_columns task.now (tree node.now)) }
{
    match node {
        Node::Base(_) => Ok(true),
        Node::Filter(child, pred) => {
            if !names_columns(alloc, task, child.get())? {
                return Ok(false);
            }
            let types = node_types(alloc, task.inputs.as_slice(), child.get())?;
            Ok(pred_in_range(types.len(), task.constants.len(), pred))
        }
        Node::Join(a, b, pred) | Node::Left(a, b, pred) => {
            if !names_columns(alloc, task, a.get())? {
                return Ok(false);
            }
            if !names_columns(alloc, task, b.get())? {
                return Ok(false);
            }
            pair_in_range(alloc, task, a.get(), b.get(), pred)
        }
        Node::Group(child, keys, agg) => {
            if !names_columns(alloc, task, child.get())? {
                return Ok(false);
            }
            let types = node_types(alloc, task.inputs.as_slice(), child.get())?;
            Ok(group_in_range(types.len(), keys.as_slice(), agg))
        }
        Node::UnionAll(a, b) | Node::Union(a, b) => {
            if !names_columns(alloc, task, a.get())? {
                return Ok(false);
            }
            names_columns(alloc, task, b.get())
        }
    }
}
