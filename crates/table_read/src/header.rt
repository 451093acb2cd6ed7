ghost use Rattle.std.specs.Prelude.{◌≡◌, ◌≤◌, IfOk, vec_len};
ghost use Rattle.first_fault.specs.Answer.{ReadsAs};
ghost use Rattle.table_read.specs.Table.{is_repeated, name_of, names_of};

use crate::cell::{field, word_of};
use crate::fault::TableFault;
use csv_records::Record;
use first_fault::Stop;
use std::alloc::Global;
use value_core::{OutOfMemory, Word};

// Whether a name is one of the earlier ones.
fn is_repeated(earlier: &[Word], name: &[u8]) -> bool
    ensures { result ≡ is_repeated earlier.now name.now }
{
    earlier.iter().any(|word| word.as_slice() == name)
}

// The name of a column after those with the earlier names, if it may stand there.
fn name_of(alloc: Global, earlier: &[Word], name: &[u8]) -> Result<Option<Word>, OutOfMemory>
    ensures { IfOk result (λ word. word ≡ name_of earlier.now name.now) }
{
    if is_repeated(earlier, name) {
        return Ok(None);
    }
    word_of(alloc, name)
}

#[tactic(auto, using(crate::proofs::HeaderFacts::names_more, crate::proofs::HeaderFacts::names_wrong), unfolding(crate::specs::Table::names_of))]
/// The names of a table's columns, of which there are at most so many, or what is wrong with the header.
pub(crate) fn names_of(
    alloc: Global,
    widest: u32,
    header: &Record,
) -> Result<Vec<Word>, Stop<TableFault>>
    ensures reads { ReadsAs (λ names. names.items) result (names_of widest header.now) }
    ensures within { IfOk result (λ names. vec_len names ≤ widest) }
{
    if header.len() > widest as usize {
        return Err(Stop::Fault(TableFault::TooManyColumns));
    }
    let mut names = Vec::new(alloc);
    for at in 0..header.len() {
        match name_of(alloc, names.as_slice(), field(header, at))? {
            Some(name) => names.push(name)?,
            None => {
                return Err(Stop::Fault(TableFault::BadName {
                    column: at as u32 + 1,
                }));
            }
        }
    }
    Ok(names)
}
