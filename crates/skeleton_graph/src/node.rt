ghost use Rattle.std.specs.Prelude.{◌≡◌, IfOk};

use query_core::Agg;
use sqlite_items::Items;
use std::alloc::Global;
use value_core::{OutOfMemory, copied};

/// What the operator of a skeleton's root is; a group has its key columns and its aggregate.
#[derive(Debug, Drop)]
pub enum Kind {
    Base(u32),
    Filter,
    Join,
    Left,
    Group(Items<usize>, Agg),
    UnionAll,
    Union,
}

impl Kind {
    /// An equal kind.
    pub fn copy(&self, alloc: Global) -> Result<Kind, OutOfMemory>
        ensures { IfOk result (λ kind. kind ≡ self.now) }
    {
        match self {
            Kind::Base(table) => Ok(Kind::Base(*table)),
            Kind::Filter => Ok(Kind::Filter),
            Kind::Join => Ok(Kind::Join),
            Kind::Left => Ok(Kind::Left),
            Kind::Group(keys, agg) => Ok(Kind::Group(copied(alloc, keys.as_slice())?, *agg)),
            Kind::UnionAll => Ok(Kind::UnionAll),
            Kind::Union => Ok(Kind::Union),
        }
    }
}

/// A node of the graph: the root of a skeleton, with its children by number.
///
/// The use of a node as the left child of `user` has the number `2 * user`, and as its right child `2 * user + 1`.
/// `first_use` is the newest use of this node, `next_left` is the next older use of its left child after its own use of it, and `next_right` of its right child.
#[derive(Debug, Drop)]
pub struct SkelNode {
    pub kind: Kind,
    pub left: Option<u32>,
    pub right: Option<u32>,
    pub first_use: Option<u32>,
    pub next_left: Option<u32>,
    pub next_right: Option<u32>,
}
