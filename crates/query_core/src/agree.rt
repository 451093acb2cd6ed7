ghost use Rattle.std.specs.Prelude.{◌≡◌, ◌++◌, ◌&&◌, IfOk};
ghost use Rattle.std.specs.Cmp.Lexicographic.{pointwise};
ghost use Rattle.value_core.specs.Value.{same_type, is_of_type};
ghost use Rattle.predicate_core.specs.Truth.{value_at};
ghost use Rattle.query_core.specs.View.{tree};
ghost use Rattle.query_core.specs.Meaning.{columns, hole_types};
ghost use Rattle.query_core.specs.Columns.{atom_agrees, pred_agrees, agg_agrees, types_agree};

use crate::agg::Agg;
use crate::node::Node;
use crate::types::{hole_types, node_types, type_at};
use predicate_core::{Atom, Pred};
use std::alloc::Global;
use table_core::TaskParts;
use value_core::{ColType, OutOfMemory, Value};

/// Whether two types are the same.
pub fn same_type(a: ColType, b: ColType) -> bool
    ensures { result ≡ same_type a b }
{
    match (a, b) {
        (ColType::Int, ColType::Int) | (ColType::Text, ColType::Text) => true,
        (ColType::Int, ColType::Text) | (ColType::Text, ColType::Int) => false,
    }
}

/// Whether two lists of types are the same.
pub fn same_types(a: &[ColType], b: &[ColType]) -> bool
    ensures { result ≡ pointwise same_type a.now b.now }
{
    if a.len() != b.len() {
        return false;
    }
    for i in 0..a.len() {
        if !same_type(a[i], b[i]) {
            return false;
        }
    }
    true
}

// Whether the constant at a place, NULL where there is none, is of a type.
fn constant_is(kind: ColType, constants: &[Value], at: usize) -> bool
    ensures { result ≡ is_of_type kind (value_at constants.now at) }
{
    match constants.get(at) {
        Some(value) => kind.is_type_of(value),
        None => false,
    }
}

// Whether an atom compares what is of one type.
fn atom_agrees(types: &[ColType], constants: &[Value], atom: Atom) -> bool
    ensures { result ≡ atom_agrees types.now constants.now atom }
{
    match atom {
        Atom::Cols(i, _, j) => same_type(type_at(types, i), type_at(types, j)),
        Atom::Const(i, _, k) => constant_is(type_at(types, i), constants, k),
        Atom::IsNull(_) | Atom::NotNull(_) => true,
    }
}

// Whether each atom of a predicate does.
fn pred_agrees(types: &[ColType], constants: &[Value], pred: &Pred) -> bool
    ensures { result ≡ pred_agrees types.now constants.now pred.now }
{
    let agrees = |atom: Atom| atom_agrees(types, constants, atom);
    match *pred {
        Pred::Always => true,
        Pred::One(a) => agrees(a),
        Pred::And2(a, b) | Pred::Or2(a, b) => agrees(a) && agrees(b),
        Pred::And3(a, b, c) | Pred::Or3(a, b, c) => agrees(a) && agrees(b) && agrees(c),
    }
}

// Whether an aggregate may stand over its column: a sum over whole numbers alone.
fn agg_agrees(types: &[ColType], agg: &Agg) -> bool
    ensures { result ≡ agg_agrees types.now agg.now }
{
    match *agg {
        Agg::Sum(column) => same_type(type_at(types, column), ColType::Int),
        Agg::CountAll | Agg::Count(_) | Agg::CountDistinct(_) | Agg::Min(_) | Agg::Max(_) => true,
    }
}

// Whether the predicate of a join compares what is of one type.
fn pair_agrees(
    alloc: Global,
    task: &TaskParts,
    a: &Node,
    b: &Node,
    pred: &Pred,
) -> Result<bool, OutOfMemory>
    ensures { IfOk result (λ ok. ok ≡ pred_agrees (hole_types task.now.inputs (tree a.now) (tree b.now)) task.now.constants pred.now) }
{
    let types = hole_types(alloc, task.inputs.as_slice(), a, b)?;
    Ok(pred_agrees(types.as_slice(), task.constants.as_slice(), pred))
}

// Whether two trees have columns of the same types.
fn may_unite(alloc: Global, task: &TaskParts, a: &Node, b: &Node) -> Result<bool, OutOfMemory>
    ensures { IfOk result (λ ok. ok ≡ pointwise same_type (columns task.now.inputs (tree a.now)) (columns task.now.inputs (tree b.now))) }
{
    let lefts = node_types(alloc, task.inputs.as_slice(), a)?;
    let rights = node_types(alloc, task.inputs.as_slice(), b)?;
    Ok(same_types(lefts.as_slice(), rights.as_slice()))
}

/// Whether the types of a tree agree: what is compared is of one type, sums are of numbers, and the parts of a union have equal types.
pub fn types_agree(alloc: Global, task: &TaskParts, node: &Node) -> Result<bool, OutOfMemory>
    ensures { IfOk result (λ ok. ok ≡ types_agree task.now (tree node.now)) }
{
    match node {
        Node::Base(_) => Ok(true),
        Node::Filter(child, pred) => {
            if !types_agree(alloc, task, child.get())? {
                return Ok(false);
            }
            let types = node_types(alloc, task.inputs.as_slice(), child.get())?;
            Ok(pred_agrees(types.as_slice(), task.constants.as_slice(), pred))
        }
        Node::Join(a, b, pred) | Node::Left(a, b, pred) => {
            if !types_agree(alloc, task, a.get())? {
                return Ok(false);
            }
            if !types_agree(alloc, task, b.get())? {
                return Ok(false);
            }
            pair_agrees(alloc, task, a.get(), b.get(), pred)
        }
        Node::Group(child, _, agg) => {
            if !types_agree(alloc, task, child.get())? {
                return Ok(false);
            }
            let types = node_types(alloc, task.inputs.as_slice(), child.get())?;
            Ok(agg_agrees(types.as_slice(), agg))
        }
        Node::UnionAll(a, b) | Node::Union(a, b) => {
            if !types_agree(alloc, task, a.get())? {
                return Ok(false);
            }
            if !types_agree(alloc, task, b.get())? {
                return Ok(false);
            }
            may_unite(alloc, task, a.get(), b.get())
        }
    }
}
