ghost use Rattle.std.specs.Prelude.{◌≡◌, IfOk};

use std::alloc::Global;
use value_core::{ColType, OutOfMemory, Word};

/// A column of a table: its name and its type.
#[derive(Debug, Drop)]
pub struct Column {
    pub name: Word,
    pub kind: ColType,
}

impl Column {
    /// An equal column.
    pub fn copy(&self, alloc: Global) -> Result<Column, OutOfMemory>
        ensures { IfOk result (λ c. c ≡ self.now) }
    {
        Ok(Column {
            name: self.name.copy(alloc)?,
            kind: self.kind,
        })
    }
}
