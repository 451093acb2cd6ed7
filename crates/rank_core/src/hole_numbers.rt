ghost use Rattle.std.specs.Prelude.{◌≡◌, ◌+◌, ◌≤◌, ◌++◌, None, length, true};
ghost use Rattle.arrayvec.specs.ArrayVec.{array_vec_len};
ghost use Rattle.table_core.specs.Limits.{first_bad_part};
ghost use Rattle.query_core.specs.View.{tree};
ghost use Rattle.query_core.specs.Meaning.{columns, input_at};
ghost use Rattle.query_core.specs.Grammar.{leaves};
ghost use Rattle.query_core.specs.Membership.{each_node, keys_ascend};
ghost use Rattle.query_core.specs.Rank.{pred_number, pred_numbers};
ghost use Rattle.table_core.specs.Rows.{types_of};

use crate::col_types::ColTypes;
use arrayvec::ArrayVec;
use predicate_core::Pred;
use query_core::Node;
use table_core::{MOST_LEAVES, MOST_OPS, TaskParts};

/// The most predicates of a query: one for each operator.
const MOST_PREDS: usize = MOST_OPS as usize;

/// The numbers of a query's predicates.
pub(crate) type HoleNumbers = ArrayVec<u64, MOST_PREDS>;

// The number of a predicate over columns of these types.
fn hole_number(task: &TaskParts, types: &ColTypes, pred: &Pred) -> u64
    requires { first_bad_part task.now ≡ None }
    ensures { result ≡ pred_number task.now types.now pred.now }
{
    let constants = task.constants.as_slice();
    predicate_core::pred_number(types.as_slice(), constants, task.atoms, pred)
}

// The types of an input's columns, none where there is no such input.
fn input_types(task: &TaskParts, table: usize) -> ColTypes
    requires { first_bad_part task.now ≡ None }
    ensures { result ≡ types_of (input_at task.now.inputs table) }
{
    match task.inputs.get(table) {
        Some(input) => ColTypes::of_table(input),
        None => ColTypes::new(),
    }
}

/// Appends the numbers of a tree's predicates, and gives the types of its columns.
#[tactic(auto, using(crate::proofs::SizeLaws::few_keys))]
pub(crate) fn push_numbers(task: &TaskParts, node: &Node, numbers: &mut HoleNumbers) -> ColTypes
    requires within { first_bad_part task.now ≡ None }
    requires leaves { length (leaves (tree node.now)) ≤ MOST_LEAVES }
    requires keys { each_node keys_ascend (tree node.now) ≡ true }
    requires room { array_vec_len numbers.old + length (pred_numbers task.now (tree node.now)) ≤ MOST_PREDS }
    ensures types { result ≡ columns task.now.inputs (tree node.now) }
    ensures numbers { numbers.new.items ≡ numbers.old.items ++ pred_numbers task.now (tree node.now) }
{
    match node {
        Node::Base(table) => input_types(task, *table as usize),
        Node::Filter(child, pred) => {
            let types = push_numbers(task, child.get(), numbers);
            numbers.push(hole_number(task, &types, pred));
            types
        }
        Node::Join(a, b, pred) | Node::Left(a, b, pred) => {
            let mut types = push_numbers(task, a.get(), numbers);
            let rights = push_numbers(task, b.get(), numbers);
            types.append(rights.as_slice());
            numbers.push(hole_number(task, &types, pred));
            types
        }
        Node::Group(child, keys, agg) => {
            let types = push_numbers(task, child.get(), numbers);
            ColTypes::of_group(types.as_slice(), keys.as_slice(), agg)
        }
        Node::UnionAll(a, b) | Node::Union(a, b) => {
            let types = push_numbers(task, a.get(), numbers);
            let _ = push_numbers(task, b.get(), numbers);
            types
        }
    }
}
