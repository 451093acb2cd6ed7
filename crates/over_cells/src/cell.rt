ghost use Rattle.std.specs.Prelude.{◌≡◌, IfOk};

use crate::values::{copied, is_from, is_within};
use sqlite_items::Items;
use std::alloc::Global;
use value_core::{OutOfMemory, Value, same};

/// The values that a cell may have.
#[derive(Debug, Drop)]
pub enum AbsCell {
    /// This value alone.
    Known(Value),
    /// One of these values, which aren't NULL; and NULL, where it may be.
    From { values: Items<Value>, null: bool },
    /// A whole number within these bounds; and NULL, where it may be.
    Within { lo: i64, hi: i64, null: bool },
    /// Any value.
    Any,
}

/// An aggregate without its column.
#[derive(Clone, Copy, Debug, PartialEq, Eq)]
pub enum AggKind {
    CountAll,
    Count,
    CountDistinct,
    Sum,
    Min,
    Max,
}

impl AbsCell {
    ghost use Rattle.over_cells.specs.Cells.{covers, value_of, is_known};

    /// An equal cell.
    pub fn copy(&self, alloc: Global) -> Result<AbsCell, OutOfMemory>
        ensures { IfOk result (λ cell. cell ≡ self.now) }
    {
        match self {
            AbsCell::Known(known) => Ok(AbsCell::Known(known.copy(alloc)?)),
            AbsCell::From { values, null } => {
                let values = copied(alloc, values.as_slice())?;
                Ok(AbsCell::From {
                    values,
                    null: *null,
                })
            }
            AbsCell::Within { lo, hi, null } => Ok(AbsCell::Within {
                lo: *lo,
                hi: *hi,
                null: *null,
            }),
            AbsCell::Any => Ok(AbsCell::Any),
        }
    }

    /// Whether this cell may have a value. It takes no memory.
    pub fn covers(&self, value: &Value) -> bool
        ensures { result ≡ covers self.now value.now }
    {
        match self {
            AbsCell::Known(known) => same(known, value),
            AbsCell::From { values, null } => is_from(values.as_slice(), *null, value),
            AbsCell::Within { lo, hi, null } => is_within(*lo, *hi, *null, value),
            AbsCell::Any => true,
        }
    }

    /// Whether this cell may have one value alone, which it holds.
    pub fn is_known(&self) -> bool
        ensures { result ≡ is_known self.now }
    {
        matches!(self, AbsCell::Known(_))
    }

    /// A copy of the value that this cell has, NULL where it isn't known.
    pub fn value(&self, alloc: Global) -> Result<Value, OutOfMemory>
        ensures { IfOk result (λ value. value ≡ value_of self.now) }
    {
        match self {
            AbsCell::Known(known) => known.copy(alloc),
            _ => Ok(Value::Null),
        }
    }
}
