ghost use Rattle.std.specs.Prelude.{◌≡◌, IfOk};

use crate::agg::Agg;
use crate::kinds::{Pairing, Uniting};
use predicate_core::Pred;
use sqlite_items::{Boxed, Items};
use std::alloc::Global;
use value_core::{OutOfMemory, copied};

/// The body of a query: a tree of operators over the inputs, which are numbered from 0.
///
/// A `Group` has its key columns and one aggregate; a `Left` is a left join.
#[derive(Debug, Drop)]
pub enum Node {
    Base(u32),
    Filter(Boxed<Node>, Pred),
    Join(Boxed<Node>, Boxed<Node>, Pred),
    Left(Boxed<Node>, Boxed<Node>, Pred),
    Group(Boxed<Node>, Items<usize>, Agg),
    UnionAll(Boxed<Node>, Boxed<Node>),
    Union(Boxed<Node>, Boxed<Node>),
}

impl Node {
    ghost use Rattle.query_core.specs.Tree as t;
    ghost use Rattle.query_core.specs.View.{tree};

    /// Two parts paired.
    pub fn pair(kind: Pairing, a: Boxed<Node>, b: Boxed<Node>, pred: Pred) -> Node
        ensures { tree result ≡ t.pair kind (tree a) (tree b) pred }
    {
        match kind {
            Pairing::Join => Node::Join(a, b, pred),
            Pairing::Left => Node::Left(a, b, pred),
        }
    }

    /// Two parts united.
    pub fn unite(kind: Uniting, a: Boxed<Node>, b: Boxed<Node>) -> Node
        ensures { tree result ≡ t.unite kind (tree a) (tree b) }
    {
        match kind {
            Uniting::All => Node::UnionAll(a, b),
            Uniting::Firsts => Node::Union(a, b),
        }
    }

    /// An equal tree in a box of its own.
    #[cycle(copy)]
    pub fn boxed(&self, alloc: Global) -> Result<Boxed<Node>, OutOfMemory>
        ensures { IfOk result (λ b. b ≡ self.now) }
    {
        Ok(Boxed::new(alloc, self.copy(alloc)?)?)
    }

    /// An equal tree.
    #[cycle(copy)]
    pub fn copy(&self, alloc: Global) -> Result<Node, OutOfMemory>
        ensures { IfOk result (λ n. n ≡ self.now) }
    {
        match self {
            Node::Base(table) => Ok(Node::Base(*table)),
            Node::Filter(child, pred) => Ok(Node::Filter(child.get().boxed(alloc)?, *pred)),
            Node::Join(a, b, pred) => {
                let a = a.get().boxed(alloc)?;
                Ok(Node::Join(a, b.get().boxed(alloc)?, *pred))
            }
            Node::Left(a, b, pred) => {
                let a = a.get().boxed(alloc)?;
                Ok(Node::Left(a, b.get().boxed(alloc)?, *pred))
            }
            Node::Group(child, keys, agg) => {
                let child = child.get().boxed(alloc)?;
                let keys = copied(alloc, keys.as_slice())?;
                Ok(Node::Group(child, keys, *agg))
            }
            Node::UnionAll(a, b) => {
                let a = a.get().boxed(alloc)?;
                Ok(Node::UnionAll(a, b.get().boxed(alloc)?))
            }
            Node::Union(a, b) => {
                let a = a.get().boxed(alloc)?;
                Ok(Node::Union(a, b.get().boxed(alloc)?))
            }
        }
    }
}
