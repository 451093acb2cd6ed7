ghost use Rattle.std.specs.Prelude.{◌≡◌, IfOk, true};
ghost use Rattle.csv.specs.Reading.{error_kind, stops_reader};
ghost use Rattle.csv_records.specs.Records.{records_of};

use crate::record::Record;
use csv::{Error, ErrorKind, ReaderBuilder};
use sqlite_items::Items;
use std::alloc::{AllocError, Global};

// Why a reading stops: a text in memory can always be read, and its records may have any number of fields, so only
// memory can be wanting.
fn want_of_memory(error: &Error) -> AllocError
    requires { stops_reader (error_kind error.now) ≡ true }
{
    match error.kind() {
        ErrorKind::Io(_) | ErrorKind::OutOfMemory => AllocError,
        _ => unreachable!(),
    }
}

/// The records of a text: fields between commas, in quotes or not, of as many fields each as there are.
pub fn read_records(alloc: Global, text: &[u8]) -> Result<Items<Record>, AllocError>
    ensures { IfOk result (λ rows. rows ≡ records_of text.now) }
{
    let reader = ReaderBuilder::new()
        .has_headers(false)
        .flexible(true)
        .from_reader(alloc, text);
    let mut rows = Items::new(alloc);
    for row in reader.into_byte_records() {
        match row {
            Ok(row) => rows.push(Record::of(row))?,
            Err(error) => return Err(want_of_memory(&error)),
        }
    }
    Ok(rows)
}
