ghost use Rattle.std.specs.Prelude.{◌≡◌, length, option_map, slice_get};

use csv::ByteRecord;
use std::marker::Model;

/// A row of fields of any bytes, which contracts see as the list of its fields.
#[derive(Drop)]
pub struct Record {
    row: ByteRecord,
}

impl Model for Record {
    ghost use Rattle.std.specs.Prelude.{List, ℕ};
    ghost use Rattle.csv.specs.Records.{fields_of};

    ghost Value = { List (List ℕ) };

    ghost view = { λ r. fields_of r.row };
}

impl Record {
    ghost use Rattle.csv.specs.Records.{fields_of};

    /// The record with the fields of a row that was read.
    pub(crate) fn of(row: ByteRecord) -> Record
        ensures { result ≡ fields_of row }
    {
        Record { row }
    }

    /// How many fields there are.
    pub fn len(&self) -> usize
        ensures { result ≡ length self.now }
    {
        self.row.len()
    }

    /// The bytes of the field at a place, if there is one.
    pub fn field(&self, at: usize) -> Option<&[u8]>
        ensures { option_map (λ f. f.now) result ≡ slice_get self.now at }
    {
        self.row.get(at)
    }
}
