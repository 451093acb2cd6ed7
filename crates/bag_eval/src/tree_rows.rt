ghost use Rattle.std.specs.Prelude.{◌≡◌, true, filter, map, length, option_map, IfOk, Some, None};
ghost use Rattle.std.specs.List.{list_all};
ghost use Rattle.predicate_core.specs.Truth.{keeps};
ghost use Rattle.table_core.specs.Rows.{are_typed};
ghost use Rattle.query_core.specs.View.{tree, select};
ghost use Rattle.query_core.specs.Firsts.{united};
ghost use Rattle.query_core.specs.Joins.{joined, left_joined};
ghost use Rattle.query_core.specs.Groups.{grouped};
ghost use Rattle.query_core.specs.Columns.{columns_fault};
ghost use Rattle.query_core.specs.Meaning.{input_at, of_both, of_rows, columns, type_at, rows, answer};
ghost use Rattle.bag_eval.specs.Results.{evaluated};

use crate::eval::Eval;
use crate::filter::keep_rows;
use crate::group::group_tuples;
use crate::join::{join_pairs, left_join_pairs};
use crate::result::evaluated;
use crate::steps::given_rows;
use crate::union::{copy_rows, unite_rows};
use predicate_core::Pred;
use query_core::{Agg, Node, Query, Uniting, node_types, picked_types};
use sqlite_items::Items;
use std::alloc::Global;
use table_core::{Table, Task, Tuple};
use value_core::{OutOfMemory, Value};

/// Copies of an input's rows, none where there is no such input.
pub fn input_rows(
    alloc: Global,
    inputs: &[Table],
    table: usize,
) -> Result<Items<Tuple>, OutOfMemory>
    ensures { IfOk result (λ out. out ≡ (input_at inputs.now table).rows) }
{
    match inputs.get(table) {
        Some(input) => copy_rows(alloc, input.tuples()),
        None => Ok(Items::new(alloc)),
    }
}

// The rows that a predicate keeps, of rows that may not be there.
fn kept(
    alloc: Global,
    constants: &[Value],
    rows: Option<Items<Tuple>>,
    pred: &Pred,
) -> Result<Option<Items<Tuple>>, OutOfMemory>
    ensures { IfOk result (λ out. out ≡ option_map (filter (keeps constants.now pred.now)) rows) }
{
    match rows {
        Some(rows) => Ok(Some(keep_rows(alloc, constants, rows.as_slice(), pred)?)),
        None => Ok(None),
    }
}

// The join of rows that may not be there.
fn joined(
    alloc: Global,
    constants: &[Value],
    lefts: Option<Items<Tuple>>,
    rights: Option<Items<Tuple>>,
    pred: &Pred,
) -> Result<Option<Items<Tuple>>, OutOfMemory>
    ensures { IfOk result (λ out. out ≡ of_both (joined constants.now pred.now) lefts rights) }
{
    match (lefts, rights) {
        (Some(lefts), Some(rights)) => {
            let pairs = join_pairs(alloc, constants, lefts.as_slice(), rights.as_slice(), pred)?;
            Ok(Some(pairs))
        }
        _ => Ok(None),
    }
}

// The left join of rows that may not be there; the right rows have so many columns.
fn left_joined(
    alloc: Global,
    constants: &[Value],
    width: usize,
    lefts: Option<Items<Tuple>>,
    rights: Option<Items<Tuple>>,
    pred: &Pred,
) -> Result<Option<Items<Tuple>>, OutOfMemory>
    ensures { IfOk result (λ out. out ≡ of_both (left_joined constants.now pred.now width) lefts rights) }
{
    match (lefts, rights) {
        (Some(lefts), Some(rights)) => {
            let lefts = lefts.as_slice();
            let pairs = left_join_pairs(alloc, constants, width, lefts, rights.as_slice(), pred)?;
            Ok(Some(pairs))
        }
        _ => Ok(None),
    }
}

// The groups of rows that may not be there.
fn grouped(
    alloc: Global,
    rows: Option<Items<Tuple>>,
    keys: &[usize],
    agg: &Agg,
) -> Result<Option<Items<Tuple>>, OutOfMemory>
    ensures { IfOk result (λ out. out ≡ of_rows (grouped keys.now agg.now) rows) }
{
    match rows {
        Some(rows) => group_tuples(alloc, keys, agg, rows.as_slice()),
        None => Ok(None),
    }
}

// The union of two parts that may not be there.
fn united(
    alloc: Global,
    kind: Uniting,
    lefts: Option<Items<Tuple>>,
    rights: Option<Items<Tuple>>,
) -> Result<Option<Items<Tuple>>, OutOfMemory>
    ensures { IfOk result (λ out. out ≡ of_both (united kind) lefts rights) }
{
    match (lefts, rights) {
        (Some(lefts), Some(rights)) => {
            let rows = unite_rows(alloc, kind, lefts.as_slice(), rights.as_slice())?;
            Ok(Some(rows))
        }
        _ => Ok(None),
    }
}

/// The rows of a tree over these inputs and constants in order, or none at all where a sum in it leaves 64 bits.
pub fn node_rows(
    alloc: Global,
    inputs: &[Table],
    constants: &[Value],
    node: &Node,
) -> Result<Option<Items<Tuple>>, OutOfMemory>
    ensures { IfOk result (λ out. out ≡ rows inputs.now constants.now (tree node.now)) }
{
    match node {
        Node::Base(table) => Ok(Some(input_rows(alloc, inputs, *table as usize)?)),
        Node::Filter(child, pred) => {
            let rows = node_rows(alloc, inputs, constants, child.get())?;
            kept(alloc, constants, rows, pred)
        }
        Node::Join(a, b, pred) => {
            let lefts = node_rows(alloc, inputs, constants, a.get())?;
            let rights = node_rows(alloc, inputs, constants, b.get())?;
            joined(alloc, constants, lefts, rights, pred)
        }
        Node::Left(a, b, pred) => {
            let lefts = node_rows(alloc, inputs, constants, a.get())?;
            let rights = node_rows(alloc, inputs, constants, b.get())?;
            let width = node_types(alloc, inputs, b.get())?.len();
            left_joined(alloc, constants, width, lefts, rights, pred)
        }
        Node::Group(child, keys, agg) => {
            let rows = node_rows(alloc, inputs, constants, child.get())?;
            grouped(alloc, rows, keys.as_slice(), agg)
        }
        Node::UnionAll(a, b) => {
            let lefts = node_rows(alloc, inputs, constants, a.get())?;
            let rights = node_rows(alloc, inputs, constants, b.get())?;
            united(alloc, Uniting::All, lefts, rights)
        }
        Node::Union(a, b) => {
            let lefts = node_rows(alloc, inputs, constants, a.get())?;
            let rights = node_rows(alloc, inputs, constants, b.get())?;
            united(alloc, Uniting::Firsts, lefts, rights)
        }
    }
}

/// The rows of a query over these inputs and constants in order, or none at all where a sum in it leaves 64 bits.
pub fn query_rows(
    alloc: Global,
    inputs: &[Table],
    constants: &[Value],
    query: &Query,
) -> Result<Option<Items<Tuple>>, OutOfMemory>
    ensures { IfOk result (λ out. out ≡ answer inputs.now constants.now (select query.now)) }
{
    match node_rows(alloc, inputs, constants, &query.body)? {
        Some(body) => {
            let picks = query.map.as_slice();
            let rows = given_rows(alloc, picks, query.distinct, body.as_slice())?;
            Ok(Some(rows))
        }
        None => Ok(None),
    }
}

// The rows of each input fit its columns, as those of any table do.
fn inputs_fit(inputs: &[Table])
    ensures { list_all (λ t. are_typed t.columns t.rows) inputs.now ≡ true }
{
    for input in inputs {
        let _rows = input.tuples();
    }
}

/// What a tree gives, in which nothing is wrong.
pub fn rows(alloc: Global, task: &Task, node: &Node) -> Result<Eval, OutOfMemory>
    requires { columns_fault task.now (tree node.now) ≡ None }
    ensures { IfOk result (λ eval. eval ≡ evaluated (columns task.now.inputs (tree node.now)) (rows task.now.inputs task.now.constants (tree node.now))) }
{
    let task = task.parts();
    let inputs = task.inputs.as_slice();
    inputs_fit(inputs);
    let types = node_types(alloc, inputs, node)?;
    let rows = node_rows(alloc, inputs, task.constants.as_slice(), node)?;
    evaluated(alloc, types.as_slice(), rows)
}

/// What a query gives, in whose body nothing is wrong.
pub fn answer(alloc: Global, task: &Task, query: &Query) -> Result<Eval, OutOfMemory>
    requires { columns_fault task.now (tree query.now.body) ≡ None }
    ensures { IfOk result (λ eval. eval ≡ evaluated (map (type_at (columns task.now.inputs (tree query.now.body))) query.now.map) (answer task.now.inputs task.now.constants (select query.now))) }
{
    let task = task.parts();
    let inputs = task.inputs.as_slice();
    inputs_fit(inputs);
    let types = node_types(alloc, inputs, &query.body)?;
    let types = picked_types(alloc, types.as_slice(), query.map.as_slice())?;
    let rows = query_rows(alloc, inputs, task.constants.as_slice(), query)?;
    evaluated(alloc, types.as_slice(), rows)
}
