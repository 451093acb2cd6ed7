ghost use Rattle.std.specs.Prelude.{◌≡◌, ◌≤◌, ◌++◌, OnOk, OnErr};
ghost use Rattle.std.specs.Fmt.{decimal};
ghost use Rattle.io_edge.specs.Rose.{Rose};
ghost use Rattle.io_edge.specs.Gained.{Gained, GainedFront};
ghost use Rattle.top_call.specs.Piece.{piece_text, pieces_text};

use io_edge::{Sink, WriteFault, write_all};
use itoa::Buffer;

/// A piece of a line: bytes, or a number in decimal.
#[derive(Clone, Copy)]
pub enum Piece<'a> {
    Words(&'a [u8]),
    Number(u32),
}

// Writes a number in decimal.
fn write_number<E: Sink>(err: &mut E, number: u32) -> Result<(), WriteFault>
    ensures all { OnOk result (Gained (E.written err.old) (E.written err.new) (decimal number)) }
    ensures front { OnErr result (GainedFront (E.written err.old) (E.written err.new) (decimal number)) }
    ensures kept { E.faults err.old ≤ E.faults err.new }
    ensures failed { OnErr result (Rose (E.faults err.old) (E.faults err.new)) }
{
    let mut buffer = Buffer::new();
    write_all(err, buffer.format(number).as_bytes())
}

// Writes a piece.
fn write_piece<E: Sink>(err: &mut E, piece: &Piece) -> Result<(), WriteFault>
    ensures all { OnOk result (Gained (E.written err.old) (E.written err.new) (piece_text piece.now)) }
    ensures front { OnErr result (GainedFront (E.written err.old) (E.written err.new) (piece_text piece.now)) }
    ensures kept { E.faults err.old ≤ E.faults err.new }
    ensures failed { OnErr result (Rose (E.faults err.old) (E.faults err.new)) }
{
    match piece {
        Piece::Words(words) => write_all(err, words),
        Piece::Number(number) => write_number(err, *number),
    }
}

/// Writes pieces one after the other.
pub fn write_pieces<E: Sink>(err: &mut E, pieces: &[Piece]) -> Result<(), WriteFault>
    ensures all { OnOk result (Gained (E.written err.old) (E.written err.new) (pieces_text pieces.now)) }
    ensures front { OnErr result (GainedFront (E.written err.old) (E.written err.new) (pieces_text pieces.now)) }
    ensures kept { E.faults err.old ≤ E.faults err.new }
    ensures failed { OnErr result (Rose (E.faults err.old) (E.faults err.new)) }
{
    match pieces.split_first() {
        None => Ok(()),
        Some((piece, others)) => match write_piece(err, piece) {
            Ok(()) => write_pieces(err, others),
            Err(fault) => Err(fault),
        },
    }
}
