ghost use Rattle.std.specs.Prelude.{◌≡◌, IfOk, OnOk, ◌++◌, drop};

use std::alloc::{AllocError, Global};
use std::marker::Model;
use value_core::{OutOfMemory, Value};

/// A row: a list of values, one for each column.
#[derive(Debug, Drop)]
pub struct Tuple {
    cells: Vec<Value>,
}

impl Model for Tuple {
    ghost use Rattle.std.specs.Prelude.{List};
    ghost use Rattle.value_core.specs.declared.value.Value.{Value as Cell};

    ghost Value = { List Cell };

    ghost view = { λ t. t.cells.items };
}

// Appends copies of these values.
fn push_copies(alloc: Global, out: &mut Vec<Value>, cells: &[Value]) -> Result<(), OutOfMemory>
    ensures { OnOk result (out.new.items ≡ out.old.items ++ cells.now) }
{
    for cell in cells {
        out.push(cell.copy(alloc)?)?;
    }
    Ok(())
}

impl Tuple {
    /// The row of these values.
    pub fn of(cells: Vec<Value>) -> Tuple
        ensures { result ≡ cells.items }
    {
        Tuple { cells }
    }

    pub fn cells(&self) -> &[Value]
        ensures { result.now ≡ self.now }
    {
        self.cells.as_slice()
    }

    /// An equal row.
    pub fn copy(&self, alloc: Global) -> Result<Tuple, OutOfMemory>
        ensures { IfOk result (λ t. t ≡ self.now) }
    {
        let mut cells = Vec::new(alloc);
        push_copies(alloc, &mut cells, self.cells.as_slice())?;
        Ok(Tuple { cells })
    }
}
