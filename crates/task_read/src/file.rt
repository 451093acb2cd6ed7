ghost use Rattle.std.specs.Prelude.{◌≡◌, ◌↔◌, ◌≤◌, ℕ, List, IfErr};
ghost use Rattle.io_edge.specs.Rose.{Rose};
ghost use Rattle.task_read.specs.Reading.{Reads, IfReadFault, UnlessReadFault};
ghost use Rattle.task_read.specs.Task.{bytes_told};

use crate::fault::{TaskEnd, TaskFault};
use io_edge::{Folder, FolderFault};
use std::alloc::Global;
use table_core::LONGEST_FILE;
use value_core::Bytes;

// The end that a fault is, of a read of this file.
fn end_of(fault: FolderFault, file: Bytes) -> TaskEnd
    ensures failed { fault ≡ FolderFault.Failed → result ≡ TaskEnd.ReadFault file }
    ensures long { fault ≡ FolderFault.TooLong → result ≡ TaskEnd.Bad (TaskFault.TooLong file) }
    ensures memory { (result ≡ TaskEnd.OutOfMemory) ↔ (fault ≡ FolderFault.OutOfMemory) }
{
    match fault {
        FolderFault::Failed => TaskEnd::ReadFault { file },
        FolderFault::TooLong => TaskEnd::Bad(TaskFault::TooLong { file }),
        FolderFault::OutOfMemory => TaskEnd::OutOfMemory,
    }
}

/// The bytes of a file.
pub(crate) fn read_file<F: Folder>(
    alloc: Global,
    folder: &mut F,
    name: &[u8],
) -> Result<Vec<u8>, TaskEnd>
    ensures told { Reads (λ v. v.items) (bytes_told name.now (F.told folder.old name.now)) result }
    ensures read { IfErr result (λ end. IfReadFault end (λ f. (f ≡ name.now) × Rose (F.faults folder.old f) (F.faults folder.new f))) }
    ensures same { F.told folder.new ≡ F.told folder.old }
    ensures kept { (n : List ℕ) → F.faults folder.old n ≤ F.faults folder.new n }
    ensures still { UnlessReadFault result ((n : List ℕ) → F.faults folder.new n ≡ F.faults folder.old n) }
{
    // The name is copied before the read, so that a failed read can be answered without memory.
    let file = Bytes::of(alloc, name)?;
    match folder.read(alloc, name, LONGEST_FILE) {
        Ok(bytes) => Ok(bytes),
        Err(fault) => Err(end_of(fault, file)),
    }
}
