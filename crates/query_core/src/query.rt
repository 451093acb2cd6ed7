ghost use Rattle.std.specs.Prelude.{◌≡◌, IfOk};

use crate::node::Node;
use sqlite_items::Items;
use std::alloc::Global;
use value_core::{OutOfMemory, copied};

/// A query: the rows of its body, each projected to the columns of the map, and duplicates removed where distinct.
#[derive(Debug, Drop)]
pub struct Query {
    pub body: Node,
    pub map: Items<usize>,
    pub distinct: bool,
}

impl Query {
    /// An equal query.
    pub fn copy(&self, alloc: Global) -> Result<Query, OutOfMemory>
        ensures { IfOk result (λ q. q ≡ self.now) }
    {
        Ok(Query {
            body: self.body.copy(alloc)?,
            map: copied(alloc, self.map.as_slice())?,
            distinct: self.distinct,
        })
    }
}
