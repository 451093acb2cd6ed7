ghost use Rattle.std.specs.Prelude.{◌≡◌, Some, None, option_copied, IfOk};
ghost use Rattle.query_core.specs.View.{tree};
ghost use Rattle.fill_core.specs.View.{AreFillingsOf, ArePartsOf};

use crate::fill_over::{Below, fill_all};
use crate::fillings::Fillings;
use query_core::Node;
use std::alloc::Global;
use table_core::Task;
use value_core::OutOfMemory;

/// Rows of a skeleton's parts, filled for it alone.
#[derive(Debug, Drop)]
pub struct Parts {
    pub left: Option<Fillings>,
    pub right: Option<Fillings>,
}

impl Parts {
    /// The rows.
    pub fn below(&self) -> Below<'_>
        ensures left { option_copied result.left ≡ self.now.left }
        ensures right { option_copied result.right ≡ self.now.right }
    {
        Below {
            left: self.left.as_ref(),
            right: self.right.as_ref(),
        }
    }
}

// The row of the only part of a skeleton.
fn one(left: Fillings) -> Parts
    ensures { result ≡ record { left = Some left; right = None } }
{
    Parts {
        left: Some(left),
        right: None,
    }
}

// The rows of the two parts of a skeleton.
fn two(left: Fillings, right: Fillings) -> Parts
    ensures { result ≡ record { left = Some left; right = Some right } }
{
    Parts {
        left: Some(left),
        right: Some(right),
    }
}

/// The rows of a skeleton's parts, filled from the inside out.
#[cycle(fill)]
pub fn parts_of(alloc: Global, task: &Task, skeleton: &Node) -> Result<Parts, OutOfMemory>
    ensures { IfOk result (λ parts. ArePartsOf task.now (tree skeleton.now) parts.left parts.right) }
{
    match skeleton {
        Node::Base(_) => Ok(Parts {
            left: None,
            right: None,
        }),
        Node::Filter(child, _) => Ok(one(fill(alloc, task, child.get())?)),
        Node::Group(child, _, _) => Ok(one(fill(alloc, task, child.get())?)),
        Node::Join(a, b, _) => {
            let left = fill(alloc, task, a.get())?;
            Ok(two(left, fill(alloc, task, b.get())?))
        }
        Node::Left(a, b, _) => {
            let left = fill(alloc, task, a.get())?;
            Ok(two(left, fill(alloc, task, b.get())?))
        }
        Node::UnionAll(a, b) => {
            let left = fill(alloc, task, a.get())?;
            Ok(two(left, fill(alloc, task, b.get())?))
        }
        Node::Union(a, b) => {
            let left = fill(alloc, task, a.get())?;
            Ok(two(left, fill(alloc, task, b.get())?))
        }
    }
}

/// The standard fillings of a skeleton that have rows, in order.
#[cycle(fill)]
pub fn fill(alloc: Global, task: &Task, skeleton: &Node) -> Result<Fillings, OutOfMemory>
    ensures { IfOk result (λ row. AreFillingsOf task.now (tree skeleton.now) row) }
{
    let parts = parts_of(alloc, task, skeleton)?;
    fill_all(alloc, task, skeleton, &parts.below())
}
