ghost use Rattle.std.specs.Prelude.{◌≡◌, ◌≤◌, ℕ, List, IfErr, IfOk};
ghost use Rattle.io_edge.specs.Rose.{Rose};
ghost use Rattle.task_file.specs.TaskFile.{MakesTask};
ghost use Rattle.task_read.specs.Faults.{EndsAs, of_key, of_task_file};
ghost use Rattle.task_read.specs.Reading.{Reads, IfReadFault, UnlessReadFault};
ghost use Rattle.task_read.specs.Task.{plan_told};

use crate::fault::{TaskEnd, TaskFault};
use crate::file::read_file;
use first_fault::Stop;
use io_edge::Folder;
use std::alloc::Global;
use task_file::{TaskFile, TaskFileFault, read_task_file};
use toml_keys::KeyFault;

// What is wrong with a task, of what is wrong with a key.
fn of_key(fault: KeyFault) -> TaskFault
    ensures { result ≡ of_key fault }
{
    match fault {
        KeyFault::UnknownKey { key } => TaskFault::UnknownKey { key },
        KeyFault::MissingKey { key } => TaskFault::MissingKey { key },
        KeyFault::BadKey { key } => TaskFault::BadKey { key },
    }
}

// What is wrong with a task, of what is wrong with its file.
fn of_task_file(fault: TaskFileFault) -> TaskFault
    ensures { result ≡ of_task_file fault }
{
    match fault {
        TaskFileFault::BadToml => TaskFault::BadToml,
        TaskFileFault::Key(fault) => of_key(fault),
    }
}

// The end of a task whose file wasn't read.
fn end_of(stop: Stop<TaskFileFault>) -> TaskEnd
    ensures { EndsAs of_task_file stop result }
{
    match stop {
        Stop::Fault(fault) => TaskEnd::Bad(of_task_file(fault)),
        Stop::OutOfMemory => TaskEnd::OutOfMemory,
    }
}

/// The task file of this name.
pub(crate) fn read_plan<F: Folder>(
    alloc: Global,
    folder: &mut F,
    name: &[u8],
) -> Result<TaskFile, TaskEnd>
    ensures told { Reads (λ plan. plan) (plan_told name.now (F.told folder.old name.now)) result }
    ensures limits { IfOk result MakesTask }
    ensures read { IfErr result (λ end. IfReadFault end (λ f. (f ≡ name.now) × Rose (F.faults folder.old f) (F.faults folder.new f))) }
    ensures same { F.told folder.new ≡ F.told folder.old }
    ensures kept { (n : List ℕ) → F.faults folder.old n ≤ F.faults folder.new n }
    ensures still { UnlessReadFault result ((n : List ℕ) → F.faults folder.new n ≡ F.faults folder.old n) }
{
    let bytes = read_file(alloc, folder, name)?;
    match read_task_file(alloc, bytes.as_slice()) {
        Ok(plan) => Ok(plan),
        Err(stop) => Err(end_of(stop)),
    }
}
