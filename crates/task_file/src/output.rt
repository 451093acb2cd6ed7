ghost use Rattle.toml.specs.View.{table_view};
ghost use Rattle.first_fault.specs.Answer.{Reads};
ghost use Rattle.task_file.specs.TaskFile.{output_in, output_of};

use crate::table_file::OutputFile;
use crate::texts::file_at;
use crate::types::types_at;
use first_fault::Stop;
use std::alloc::Global;
use table_core::MOST_OUTPUT_COLUMNS;
use toml::Table;
use toml_keys::{KeyFault, check_known, table_at, under};

// The output of a table.
#[tactic(auto, unfolding(crate::specs::TaskFile::output_in))]
fn output_in(alloc: Global, table: &Table) -> Result<OutputFile, Stop<KeyFault>>
    ensures { Reads result (output_in (table_view table.now)) }
{
    check_known(alloc, table, &["file", "types"])?;
    let file = file_at(alloc, table)?;
    let types = types_at(alloc, table, MOST_OUTPUT_COLUMNS)?;
    Ok(OutputFile { file, types })
}

/// The output of a task.
#[tactic(auto, unfolding(crate::specs::TaskFile::output_of))]
pub(crate) fn output_of(alloc: Global, table: &Table) -> Result<OutputFile, Stop<KeyFault>>
    ensures { Reads result (output_of (table_view table.now)) }
{
    let found = table_at(alloc, table, "output")?;
    match output_in(alloc, found) {
        Ok(output) => Ok(output),
        Err(stop) => Err(under(alloc, "output.", stop)),
    }
}
