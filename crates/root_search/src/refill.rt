ghost use Rattle.std.specs.Prelude.{◌≡◌, OnOk, IfOk};
ghost use Rattle.query_core.specs.View.{tree};
ghost use Rattle.root_search.specs.Answers.{next_pred, behind, given};

use predicate_core::Pred;
use query_core::Node;
use sqlite_items::Boxed;
use std::alloc::Global;
use std::slice::Iter;
use value_core::{OutOfMemory, copied};

// The next predicate, Always where none is left.
fn next_pred(preds: &mut Iter<'_, Pred>) -> Pred
    ensures next { result ≡ next_pred preds.old.rest.now }
    ensures left { preds.new.rest.now ≡ behind preds.old.rest.now }
{
    match preds.next() {
        Some(pred) => *pred,
        None => Pred::Always,
    }
}

/// A skeleton with the next of some predicates in each of its holes, from the left part to the right part to the node.
#[cycle(refilled)]
pub(crate) fn refilled(
    alloc: Global,
    skeleton: &Node,
    preds: &mut Iter<'_, Pred>,
) -> Result<Node, OutOfMemory>
    ensures tree { IfOk result (λ n. tree n ≡ (given (tree skeleton.now) preds.old.rest.now).tree) }
    ensures left { OnOk result (preds.new.rest.now ≡ (given (tree skeleton.now) preds.old.rest.now).left) }
{
    match skeleton {
        Node::Base(table) => Ok(Node::Base(*table)),
        Node::Filter(child, _) => {
            let child = boxed(alloc, child.get(), preds)?;
            Ok(Node::Filter(child, next_pred(preds)))
        }
        Node::Join(a, b, _) => {
            let a = boxed(alloc, a.get(), preds)?;
            let b = boxed(alloc, b.get(), preds)?;
            Ok(Node::Join(a, b, next_pred(preds)))
        }
        Node::Left(a, b, _) => {
            let a = boxed(alloc, a.get(), preds)?;
            let b = boxed(alloc, b.get(), preds)?;
            Ok(Node::Left(a, b, next_pred(preds)))
        }
        Node::Group(child, keys, agg) => {
            let child = boxed(alloc, child.get(), preds)?;
            Ok(Node::Group(child, copied(alloc, keys.as_slice())?, *agg))
        }
        Node::UnionAll(a, b) => {
            let a = boxed(alloc, a.get(), preds)?;
            Ok(Node::UnionAll(a, boxed(alloc, b.get(), preds)?))
        }
        Node::Union(a, b) => {
            let a = boxed(alloc, a.get(), preds)?;
            Ok(Node::Union(a, boxed(alloc, b.get(), preds)?))
        }
    }
}

// The same, in a box of its own.
#[cycle(refilled)]
fn boxed(
    alloc: Global,
    skeleton: &Node,
    preds: &mut Iter<'_, Pred>,
) -> Result<Boxed<Node>, OutOfMemory>
    ensures tree { IfOk result (λ n. tree n ≡ (given (tree skeleton.now) preds.old.rest.now).tree) }
    ensures left { OnOk result (preds.new.rest.now ≡ (given (tree skeleton.now) preds.old.rest.now).left) }
{
    Ok(Boxed::new(alloc, refilled(alloc, skeleton, preds)?)?)
}
