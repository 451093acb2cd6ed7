ghost use Rattle.std.specs.Prelude.{◌≡◌};

use task_read::TaskFault;
use value_core::Bytes;

/// How a run ended.
#[derive(Debug, Drop)]
pub enum End {
    /// The text was written, with this number of answers.
    Listed { count: u64 },
    /// The text was written, and there is no answer.
    Empty,
    /// The words aren't understood.
    Usage,
    /// This is the first thing that is wrong with the task.
    BadTask(TaskFault),
    /// The task has more than 100,000 skeletons.
    TooMany,
    /// The search of the task needs more than its budget.
    OverBudget,
    /// This file couldn't be read.
    ReadFault { file: Bytes },
    /// The text couldn't be written whole.
    WriteFault,
    OutOfMemory,
}

impl End {
    ghost use Rattle.top_call.specs.Line.{status};

    /// The status that the program ends with.
    pub fn status(&self) -> u8
        ensures { result ≡ status self.now }
    {
        match self {
            End::Listed { .. } => 0,
            End::Empty => 1,
            End::Usage => 2,
            End::BadTask(_) => 3,
            End::TooMany => 4,
            End::OverBudget => 5,
            End::ReadFault { .. } => 6,
            End::WriteFault => 7,
            End::OutOfMemory => 8,
        }
    }
}
