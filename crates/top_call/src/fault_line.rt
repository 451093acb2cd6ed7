ghost use Rattle.std.specs.Prelude.{◌≡◌, ◌≤◌, ◌++◌, codes, OnOk, OnErr};
ghost use Rattle.std.specs.Fmt.{decimal};
ghost use Rattle.io_edge.specs.Rose.{Rose};
ghost use Rattle.io_edge.specs.Gained.{Gained, GainedFront};
ghost use Rattle.top_call.specs.Line.{fault_words};
ghost use Rattle.top_call.specs.Piece.{pieces_text};

use crate::piece::Piece::{Number, Words};
use crate::piece::{Piece, write_pieces};
use io_edge::{Sink, WriteFault};
use task_read::TaskFault;

// As many pieces as the words of a fault have at most.
const MOST_PIECES: usize = 6;

// Two pieces of bytes, and then empty ones.
fn two<'a>(first: &'a [u8], second: &'a [u8]) -> [Piece<'a>; MOST_PIECES]
    ensures { pieces_text result ≡ first.now ++ second.now }
{
    let none = Words(b"");
    [Words(first), Words(second), none, none, none, none]
}

// A file, a number with words before and behind, and then empty ones.
fn numbered<'a>(
    file: &'a [u8],
    before: &'a [u8],
    number: u32,
    behind: &'a [u8],
) -> [Piece<'a>; MOST_PIECES]
    ensures { pieces_text result ≡ file.now ++ before.now ++ decimal number ++ behind.now }
{
    let none = Words(b"");
    [
        Words(file),
        Words(before),
        Number(number),
        Words(behind),
        none,
        none,
    ]
}

// The pieces that tell of a cell.
fn cell(file: &[u8], row: u32, column: u32) -> [Piece<'_>; MOST_PIECES]
    ensures { pieces_text result ≡ file.now ++ codes " row " ++ decimal row ++ codes " column " ++ decimal column ++ codes " is no value of its type" }
{
    [
        Words(file),
        Words(b" row "),
        Number(row),
        Words(b" column "),
        Number(column),
        Words(b" is no value of its type"),
    ]
}

// The pieces of the words that tell what is wrong with a task.
fn pieces_of(fault: &TaskFault) -> [Piece<'_>; MOST_PIECES]
    ensures { pieces_text result ≡ fault_words fault.now }
{
    match fault {
        TaskFault::TooLong { file } => two(file.as_slice(), b" is longer than 65536 bytes"),
        TaskFault::BadToml => two(b"the task file is not TOML", b""),
        TaskFault::UnknownKey { key } => two(b"unknown key ", key.as_slice()),
        TaskFault::MissingKey { key } => two(b"missing key ", key.as_slice()),
        TaskFault::BadKey { key } => two(b"bad key ", key.as_slice()),
        TaskFault::BadText { file } => two(file.as_slice(), b" is not UTF-8"),
        TaskFault::NoHeader { file } => two(file.as_slice(), b" has no header"),
        TaskFault::BadName { file, column } => numbered(
            file.as_slice(),
            b" has a bad name in column ",
            *column,
            b"",
        ),
        TaskFault::BadWidth { file, row } => numbered(
            file.as_slice(),
            b" row ",
            *row,
            b" has a wrong number of fields",
        ),
        TaskFault::BadCell { file, row, column } => cell(file.as_slice(), *row, *column),
        TaskFault::TooManyRows { file } => two(file.as_slice(), b" has too many rows"),
        TaskFault::TooManyColumns { file } => two(file.as_slice(), b" has too many columns"),
    }
}

/// Writes the words that tell what is wrong with a task.
pub fn write_fault<E: Sink>(err: &mut E, fault: &TaskFault) -> Result<(), WriteFault>
    ensures all { OnOk result (Gained (E.written err.old) (E.written err.new) (fault_words fault.now)) }
    ensures front { OnErr result (GainedFront (E.written err.old) (E.written err.new) (fault_words fault.now)) }
    ensures kept { E.faults err.old ≤ E.faults err.new }
    ensures failed { OnErr result (Rose (E.faults err.old) (E.faults err.new)) }
{
    write_pieces(err, &pieces_of(fault))
}
