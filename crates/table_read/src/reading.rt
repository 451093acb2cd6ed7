ghost use Rattle.std.specs.Prelude.{◌≡◌, IfOk, true};
ghost use Rattle.first_fault.specs.Answer.{Reads};
ghost use Rattle.table_core.specs.Limits.{is_table_within};
ghost use Rattle.table_read.specs.Table.{table_in, table_of};

use crate::columns::{are_types_of, columns_of};
use crate::fault::TableFault;
use crate::header::names_of;
use crate::rows::{check_lines, tuples_of};
use crate::size::Size;
use csv_records::{Record, read_records};
use first_fault::Stop;
use sqlite_items::Items;
use std::alloc::Global;
use table_core::Table;
use value_core::{ColType, Word, is_text};

#[tactic(auto, using(crate::proofs::Typing::tuples_typed), unfolding(crate::specs::Table::table_under, crate::specs::Table::table_with))]
// The table that these records tell, of which the first is the header, or their first fault.
fn table_in(
    alloc: Global,
    name: Word,
    size: Size,
    types: &Option<Items<ColType>>,
    records: &[Record],
) -> Result<Table, Stop<TableFault>>
    ensures { Reads result (table_in name size types.now records.now) }
{
    let Some((header, rows)) = records.split_first() else {
        return Err(Stop::Fault(TableFault::NoHeader));
    };
    let names = names_of(alloc, size.columns, header)?;
    if !are_types_of(names.len(), types) {
        return Err(Stop::Fault(TableFault::BadTypes));
    }
    if let Err(fault) = check_lines(size.rows, names.len(), rows) {
        return Err(Stop::Fault(fault));
    }
    let columns = columns_of(alloc, types, names.as_slice(), rows)?;
    let tuples = tuples_of(alloc, columns.as_slice(), rows)?;
    Ok(Table::with_rows(name, columns, tuples))
}

#[tactic(auto, unfolding(crate::specs::Table::table_of))]
/// The table of this name that a file of these bytes tells, or the first fault of the file: a header of names, and rows of
/// values of the columns' types, which are declared or read off the rows.
pub fn read_table(
    alloc: Global,
    name: Word,
    size: Size,
    types: &Option<Items<ColType>>,
    bytes: &[u8],
) -> Result<Table, Stop<TableFault>>
    ensures reads { Reads result (table_of name size types.now bytes.now) }
    ensures within { IfOk result (λ table. is_table_within size.columns size.rows table ≡ true) }
    ensures named { IfOk result (λ table. table.name ≡ name) }
{
    if !is_text(bytes) {
        return Err(Stop::Fault(TableFault::BadText));
    }
    let records = read_records(alloc, bytes)?;
    table_in(alloc, name, size, types, records.as_slice())
}
