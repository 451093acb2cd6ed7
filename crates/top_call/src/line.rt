ghost use Rattle.std.specs.Prelude.{◌≡◌, ◌≤◌, ◌++◌, ◌∷◌, [], codes, OnOk, OnErr};
ghost use Rattle.io_edge.specs.Rose.{Rose};
ghost use Rattle.io_edge.specs.Gained.{Gained, GainedFront};
ghost use Rattle.top_call.specs.Line.{line, line_of, fault_words};

use crate::end::End;
use crate::fault_line::write_fault;
use crate::piece::Piece::Words;
use crate::piece::write_pieces;
use io_edge::{Sink, WriteFault, write_all};
use task_read::TaskFault;

// Writes the front of the line of a task that something is wrong with, and what that is.
fn write_bad_front<E: Sink>(err: &mut E, fault: &TaskFault) -> Result<(), WriteFault>
    ensures all { OnOk result (Gained (E.written err.old) (E.written err.new) (codes "scythe: bad task: " ++ fault_words fault.now)) }
    ensures front { OnErr result (GainedFront (E.written err.old) (E.written err.new) (codes "scythe: bad task: " ++ fault_words fault.now)) }
    ensures kept { E.faults err.old ≤ E.faults err.new }
    ensures failed { OnErr result (Rose (E.faults err.old) (E.faults err.new)) }
{
    match write_all(err, b"scythe: bad task: ") {
        Ok(()) => write_fault(err, fault),
        Err(failed) => Err(failed),
    }
}

// Writes the line of a task that something is wrong with.
fn write_bad_task<E: Sink>(err: &mut E, fault: &TaskFault) -> Result<(), WriteFault>
    ensures all { OnOk result (Gained (E.written err.old) (E.written err.new) (line_of (codes "bad task: " ++ fault_words fault.now))) }
    ensures front { OnErr result (GainedFront (E.written err.old) (E.written err.new) (line_of (codes "bad task: " ++ fault_words fault.now))) }
    ensures failed { OnErr result (Rose (E.faults err.old) (E.faults err.new)) }
{
    match write_bad_front(err, fault) {
        Ok(()) => write_all(err, b"\n"),
        Err(failed) => Err(failed),
    }
}

// Writes the line of a file that couldn't be read.
fn write_unread<E: Sink>(err: &mut E, file: &[u8]) -> Result<(), WriteFault>
    ensures all { OnOk result (Gained (E.written err.old) (E.written err.new) (line_of (codes "cannot read " ++ file.now))) }
    ensures front { OnErr result (GainedFront (E.written err.old) (E.written err.new) (line_of (codes "cannot read " ++ file.now))) }
    ensures failed { OnErr result (Rose (E.faults err.old) (E.faults err.new)) }
{
    write_pieces(
        err,
        &[Words(b"scythe: cannot read "), Words(file), Words(b"\n")],
    )
}

/// Writes the line of an end, which is none for a run that lists.
pub fn write_line<E: Sink>(err: &mut E, end: &End) -> Result<(), WriteFault>
    ensures all { OnOk result (Gained (E.written err.old) (E.written err.new) (line end.now)) }
    ensures front { OnErr result (GainedFront (E.written err.old) (E.written err.new) (line end.now)) }
    ensures failed { OnErr result (Rose (E.faults err.old) (E.faults err.new)) }
{
    match end {
        End::Listed { .. } | End::Empty => write_all(err, b""),
        End::Usage => write_all(err, b"scythe: the words are not understood\n"),
        End::BadTask(fault) => write_bad_task(err, fault),
        End::TooMany => write_all(err, b"scythe: more than 100000 skeletons\n"),
        End::OverBudget => write_all(err, b"scythe: the budget is too small\n"),
        End::ReadFault { file } => write_unread(err, file.as_slice()),
        End::WriteFault => write_all(err, b"scythe: cannot write\n"),
        End::OutOfMemory => write_all(err, b"scythe: out of memory\n"),
    }
}
