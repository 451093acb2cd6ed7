use std::alloc::AllocError;
use value_core::{Bytes, OutOfMemory};

/// What is wrong with a task. Rows and columns are counted from 1, and the header of a table is no row.
#[derive(Debug, Drop)]
pub enum TaskFault {
    /// The file has more bytes than a file may have.
    TooLong { file: Bytes },
    /// The task file isn't TOML.
    BadToml,
    /// The task file has a key that no task has.
    UnknownKey { key: Bytes },
    /// A key that has to be there is missing.
    MissingKey { key: Bytes },
    /// The value at a key isn't as it has to be.
    BadKey { key: Bytes },
    /// The table's file isn't UTF-8.
    BadText { file: Bytes },
    /// The table's file has no header.
    NoHeader { file: Bytes },
    /// The name of this column is empty, too long or that of an earlier column.
    BadName { file: Bytes, column: u32 },
    /// This row has another number of fields than the header.
    BadWidth { file: Bytes, row: u32 },
    /// The field at this row and column is no value of the column's type.
    BadCell { file: Bytes, row: u32, column: u32 },
    /// The table has more rows than it may have.
    TooManyRows { file: Bytes },
    /// The table has more columns than it may have.
    TooManyColumns { file: Bytes },
}

/// Why a task isn't read: a file that can't be read, the first thing that is wrong, or no memory.
#[derive(Debug, Drop)]
pub enum TaskEnd {
    ReadFault { file: Bytes },
    Bad(TaskFault),
    OutOfMemory,
}

impl From<OutOfMemory> for TaskEnd {
    ghost use Rattle.std.specs.Prelude.{◌≡◌};
    ghost use Rattle.task_read.specs.declared.fault.TaskEnd.TheVariants as end;

    ghost from_gives = { λ _ given. given ≡ end.OutOfMemory };

    fn from(_fault: OutOfMemory) -> TaskEnd {
        TaskEnd::OutOfMemory
    }
}

impl From<AllocError> for TaskEnd {
    ghost use Rattle.std.specs.Prelude.{◌≡◌};
    ghost use Rattle.task_read.specs.declared.fault.TaskEnd.TheVariants as end;

    ghost from_gives = { λ _ given. given ≡ end.OutOfMemory };

    fn from(_fault: AllocError) -> TaskEnd {
        TaskEnd::OutOfMemory
    }
}
