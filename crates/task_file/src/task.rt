ghost use Rattle.std.specs.Prelude.{◌≡◌, IfOk};
ghost use Rattle.toml.specs.View.{table_view};
ghost use Rattle.first_fault.specs.Answer.{Reads};
ghost use Rattle.task_file.specs.TaskFile.{MakesTask, task_file_of, task_of};

use crate::aggregates::aggregates_at;
use crate::constants::constants_at;
use crate::fault::{TaskFileFault, stop_of_key};
use crate::input::inputs_of;
use crate::output::output_of;
use crate::table_file::{InputFile, OutputFile};
use first_fault::Stop;
use sqlite_items::Items;
use std::alloc::Global;
use table_core::{
    AggSet, LARGEST_BUDGET, MOST_ATOMS, MOST_LEAVES, MOST_OPS, MOST_SHOWN, Table, TaskParts,
};
use toml_keys::{Bounds, KeyFault, check_known, number_or, read_document};
use value_core::Value;

// What `ops`, `leaves` and `atoms` are where the key is absent.
const DEFAULT_SIZE: u32 = 2;
// What `show` is where the key is absent.
const DEFAULT_SHOWN: u32 = 25;
// What `budget` is where the key is absent.
const DEFAULT_BUDGET: u32 = 200_000;

// The bounds of `ops`, `leaves`, `atoms`, `show` and `budget`.
const OPS: Bounds = Bounds {
    low: 0,
    high: MOST_OPS,
};

const LEAVES: Bounds = Bounds {
    low: 1,
    high: MOST_LEAVES,
};

const ATOMS: Bounds = Bounds {
    low: 1,
    high: MOST_ATOMS,
};

const SHOWN: Bounds = Bounds {
    low: 1,
    high: MOST_SHOWN,
};

const BUDGET: Bounds = Bounds {
    low: 1,
    high: LARGEST_BUDGET as u32,
};

/// What a task asks for: queries over the inputs that give the output.
#[derive(Debug, Drop)]
pub struct TaskFile {
    /// The tables that a query may read.
    pub inputs: Items<InputFile>,
    /// The table that a query has to give.
    pub output: OutputFile,
    /// The values that a query may name.
    pub constants: Items<Value>,
    /// The aggregates that a query may take.
    pub aggregates: AggSet,
    /// The most operators of a query.
    pub ops: u32,
    /// The most tables that a query reads.
    pub leaves: u32,
    /// The most comparisons of a predicate.
    pub atoms: u32,
    /// The most answers that are printed.
    pub show: u32,
    /// How much work a search may do.
    pub budget: u64,
}

impl TaskFile {
    ghost use Rattle.std.specs.Prelude.{◌≡◌};
    ghost use Rattle.task_file.specs.TaskFile.{parts_of};

    /// The parts of the task, with these tables.
    pub fn with_tables(self, inputs: Items<Table>, output: Table) -> TaskParts
        ensures { result ≡ parts_of self inputs output }
    {
        TaskParts {
            inputs,
            output,
            constants: self.constants,
            aggregates: self.aggregates,
            ops: self.ops,
            leaves: self.leaves,
            atoms: self.atoms,
            show: self.show,
            budget: self.budget,
        }
    }
}

// The task that the keys of a table write.
#[tactic(auto, unfolding(crate::specs::TaskFile::task_of))]
fn task_of(alloc: Global, table: &toml::Table) -> Result<TaskFile, Stop<KeyFault>>
    ensures { Reads result (task_of (table_view table.now)) }
{
    check_known(
        alloc,
        table,
        &[
            "input",
            "output",
            "constants",
            "aggregates",
            "ops",
            "leaves",
            "atoms",
            "show",
            "budget",
        ],
    )?;
    let inputs = inputs_of(alloc, table)?;
    let output = output_of(alloc, table)?;
    let constants = constants_at(alloc, table)?;
    let aggregates = aggregates_at(alloc, table)?;
    let ops = number_or(alloc, table, "ops", DEFAULT_SIZE, OPS)?;
    let leaves = number_or(alloc, table, "leaves", DEFAULT_SIZE, LEAVES)?;
    let atoms = number_or(alloc, table, "atoms", DEFAULT_SIZE, ATOMS)?;
    let show = number_or(alloc, table, "show", DEFAULT_SHOWN, SHOWN)?;
    let budget = number_or(alloc, table, "budget", DEFAULT_BUDGET, BUDGET)?;
    Ok(TaskFile {
        inputs,
        output,
        constants,
        aggregates,
        ops,
        leaves,
        atoms,
        show,
        budget: u64::from(budget),
    })
}

/// The task that a file of these bytes writes, or its first fault.
#[tactic(auto, unfolding(crate::specs::TaskFile::task_file_of))]
pub fn read_task_file(alloc: Global, bytes: &[u8]) -> Result<TaskFile, Stop<TaskFileFault>>
    ensures reads { Reads result (task_file_of bytes.now) }
    ensures limits { IfOk result MakesTask }
{
    let Some(table) = read_document(alloc, bytes)? else {
        return Err(Stop::Fault(TaskFileFault::BadToml));
    };
    match task_of(alloc, &table) {
        Ok(task) => Ok(task),
        Err(stop) => Err(stop_of_key(stop)),
    }
}
