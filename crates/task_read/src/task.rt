ghost use Rattle.std.specs.Prelude.{◌≡◌, ◌≤◌, ℕ, List, None, IfErr, IfOk};
ghost use Rattle.io_edge.specs.Rose.{Rose};
ghost use Rattle.table_core.specs.Limits.{first_bad_part};
ghost use Rattle.task_file.specs.TaskFile.{MakesTask};
ghost use Rattle.task_read.specs.Reading.{Reads, IfReadFault, UnlessReadFault};
ghost use Rattle.task_read.specs.Task.{parts_told, task_told, IsRead, IsReadAsTable};

use crate::fault::TaskEnd;
use crate::plan::read_plan;
use crate::tables::{read_inputs, read_output};
use io_edge::Folder;
use sqlite_items::Items;
use std::alloc::Global;
use table_core::{Task, TaskParts};
use task_file::TaskFile;

// The parts of the task of a task file.
fn read_parts<F: Folder>(
    alloc: Global,
    folder: &mut F,
    plan: TaskFile,
) -> Result<TaskParts, TaskEnd>
    requires { MakesTask plan }
    ensures told { Reads (λ parts. parts) (parts_told (F.told folder.old) plan) result }
    ensures limits { IfOk result (λ parts. first_bad_part parts ≡ None) }
    ensures read { IfErr result (λ end. IfReadFault end (λ f. IsReadAsTable (F.told folder.old) plan f × Rose (F.faults folder.old f) (F.faults folder.new f))) }
    ensures same { F.told folder.new ≡ F.told folder.old }
    ensures kept { (n : List ℕ) → F.faults folder.old n ≤ F.faults folder.new n }
    ensures still { UnlessReadFault result ((n : List ℕ) → F.faults folder.new n ≡ F.faults folder.old n) }
{
    let inputs = read_inputs(alloc, folder, Items::new(alloc), plan.inputs.as_slice())?;
    let output = read_output(alloc, folder, &plan.output)?;
    Ok(plan.with_tables(inputs, output))
}

// The task of parts that are within their limits.
fn task_of(parts: TaskParts) -> Task
    requires { first_bad_part parts ≡ None }
    ensures { result ≡ parts }
{
    match Task::new(parts) {
        Ok(task) => task,
        Err(_) => unreachable!(),
    }
}

/// The task of the task file of this name, or the first thing that is wrong with it or its tables.
///
/// The files are read in this order: the task file, the inputs as they stand in it, the output. A read that fails ends it
/// with the name of that file, and nothing is read after it.
pub fn read_task<F: Folder>(alloc: Global, folder: &mut F, name: &[u8]) -> Result<Task, TaskEnd>
    ensures told { Reads (λ task. task) (task_told (F.told folder.old) name.now) result }
    ensures read { IfErr result (λ end. IfReadFault end (λ f. IsRead (F.told folder.old) name.now f × Rose (F.faults folder.old f) (F.faults folder.new f))) }
    ensures same { F.told folder.new ≡ F.told folder.old }
    ensures kept { (n : List ℕ) → F.faults folder.old n ≤ F.faults folder.new n }
    ensures still { UnlessReadFault result ((n : List ℕ) → F.faults folder.new n ≡ F.faults folder.old n) }
{
    let plan = read_plan(alloc, folder, name)?;
    match read_parts(alloc, folder, plan) {
        Ok(parts) => Ok(task_of(parts)),
        Err(end) => Err(end),
    }
}
