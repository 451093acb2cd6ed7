ghost use Rattle.std.specs.Prelude.{◌≡◌, IfOk};
ghost use Rattle.toml.specs.View.{table_view};
ghost use Rattle.value_core.specs.Word.{IsWord};
ghost use Rattle.first_fault.specs.Answer.{Reads};
ghost use Rattle.task_file.specs.TaskFile.{file_at};

use first_fault::Stop;
use std::alloc::Global;
use table_core::LONGEST_FILE_NAME;
use toml::Table;
use toml_keys::{KeyFault, text_at};
use value_core::{Bytes, OutOfMemory, Word, WordFault};

// A copy of these bytes, which are a word.
pub(crate) fn word(alloc: Global, bytes: &[u8]) -> Result<Word, OutOfMemory>
    requires { IsWord bytes.now }
    ensures { IfOk result (λ word. word ≡ bytes.now) }
{
    match Word::of(alloc, bytes) {
        Ok(word) => Ok(word),
        Err(WordFault::BadLength { .. }) => unreachable!(),
        Err(WordFault::OutOfMemory) => Err(OutOfMemory),
    }
}

// The name of a table's file.
#[tactic(auto, unfolding(crate::specs::TaskFile::file_at))]
pub(crate) fn file_at(alloc: Global, table: &Table) -> Result<Bytes, Stop<KeyFault>>
    ensures { Reads result (file_at (table_view table.now)) }
{
    let name = text_at(alloc, table, "file", LONGEST_FILE_NAME)?;
    Ok(Bytes::of(alloc, name)?)
}
