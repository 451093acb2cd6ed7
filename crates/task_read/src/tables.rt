ghost use Rattle.std.specs.Prelude.{◌≡◌, ◌≤◌, ◌++◌, ℕ, List, true, codes, IfErr, IfOk};
ghost use Rattle.io_edge.specs.Rose.{Rose};
ghost use Rattle.table_core.specs.Limits.{is_output_within, is_table_within};
ghost use Rattle.task_read.specs.Faults.{Ends, EndsAs, in_file};
ghost use Rattle.task_read.specs.Reading.{Reads, IfReadFault, UnlessReadFault};
ghost use Rattle.task_read.specs.Task.{input_told, inputs_after, output_told, IsReadAsInput, are_within, table_names, input_names};

use crate::fault::{TaskEnd, TaskFault};
use crate::file::read_file;
use first_fault::Stop;
use io_edge::Folder;
use sqlite_items::Items;
use std::alloc::Global;
use table_core::{MOST_COLUMNS, MOST_OUTPUT_COLUMNS, MOST_OUTPUT_ROWS, MOST_ROWS, Table};
use table_read::{Size, TableFault, read_table};
use task_file::{InputFile, OutputFile};
use value_core::{Bytes, OutOfMemory, Word};

// What is wrong with a task, of what is wrong with a table in this file, whose types stand at this key.
fn in_file(file: Bytes, types: Bytes, fault: TableFault) -> TaskFault
    ensures { result ≡ in_file file types fault }
{
    match fault {
        TableFault::BadText => TaskFault::BadText { file },
        TableFault::NoHeader => TaskFault::NoHeader { file },
        TableFault::TooManyColumns => TaskFault::TooManyColumns { file },
        TableFault::BadName { column } => TaskFault::BadName { file, column },
        TableFault::BadTypes => TaskFault::BadKey { key: types },
        TableFault::TooManyRows => TaskFault::TooManyRows { file },
        TableFault::BadWidth { row } => TaskFault::BadWidth { file, row },
        TableFault::BadCell { row, column } => TaskFault::BadCell { file, row, column },
    }
}

// The end of a task, of what is wrong with a table in this file, whose types stand at this key.
fn bad_table(alloc: Global, file: &Bytes, types: &str, fault: TableFault) -> TaskEnd
    ensures { Ends result (in_file file.now types.now fault) }
{
    let Ok(file) = Bytes::of(alloc, file.as_slice()) else {
        return TaskEnd::OutOfMemory;
    };
    let Ok(types) = Bytes::of(alloc, types.as_bytes()) else {
        return TaskEnd::OutOfMemory;
    };
    TaskEnd::Bad(in_file(file, types, fault))
}

// The end of a task whose table in this file wasn't read.
fn end_of(alloc: Global, file: &Bytes, types: &str, stop: Stop<TableFault>) -> TaskEnd
    ensures { EndsAs (in_file file.now types.now) stop result }
{
    match stop {
        Stop::Fault(fault) => bad_table(alloc, file, types, fault),
        Stop::OutOfMemory => TaskEnd::OutOfMemory,
    }
}

// The table of an input.
fn read_input<F: Folder>(alloc: Global, folder: &mut F, input: &InputFile) -> Result<Table, TaskEnd>
    ensures told { Reads (λ table. table) (input_told input.now (F.told folder.old input.now.file)) result }
    ensures within { IfOk result (λ table. is_table_within MOST_COLUMNS MOST_ROWS table ≡ true) }
    ensures named { IfOk result (λ table. table.name ≡ input.now.name) }
    ensures read { IfErr result (λ end. IfReadFault end (λ f. (f ≡ input.now.file) × Rose (F.faults folder.old f) (F.faults folder.new f))) }
    ensures same { F.told folder.new ≡ F.told folder.old }
    ensures kept { (n : List ℕ) → F.faults folder.old n ≤ F.faults folder.new n }
    ensures still { UnlessReadFault result ((n : List ℕ) → F.faults folder.new n ≡ F.faults folder.old n) }
{
    let name = input.name.copy(alloc)?;
    let bytes = read_file(alloc, folder, input.file.as_slice())?;
    let size = Size {
        columns: MOST_COLUMNS as u32,
        rows: MOST_ROWS as u32,
    };
    match read_table(alloc, name, size, &input.types, bytes.as_slice()) {
        Ok(table) => Ok(table),
        Err(stop) => Err(end_of(alloc, &input.file, "input.types", stop)),
    }
}

/// The earlier tables, and those of these inputs.
pub(crate) fn read_inputs<F: Folder>(
    alloc: Global,
    folder: &mut F,
    mut earlier: Items<Table>,
    inputs: &[InputFile],
) -> Result<Items<Table>, TaskEnd>
    requires { are_within earlier ≡ true }
    ensures told { Reads (λ tables. tables) (inputs_after (F.told folder.old) earlier inputs.now) result }
    ensures within { IfOk result (λ tables. are_within tables ≡ true) }
    ensures named { IfOk result (λ tables. table_names tables ≡ table_names earlier ++ input_names inputs.now) }
    ensures read { IfErr result (λ end. IfReadFault end (λ f. IsReadAsInput (F.told folder.old) inputs.now f × Rose (F.faults folder.old f) (F.faults folder.new f))) }
    ensures same { F.told folder.new ≡ F.told folder.old }
    ensures kept { (n : List ℕ) → F.faults folder.old n ≤ F.faults folder.new n }
    ensures still { UnlessReadFault result ((n : List ℕ) → F.faults folder.new n ≡ F.faults folder.old n) }
{
    match inputs.split_first() {
        None => Ok(earlier),
        Some((input, others)) => {
            let table = read_input(alloc, folder, input)?;
            earlier.push(table)?;
            read_inputs(alloc, folder, earlier, others)
        }
    }
}

/// The table of the output.
pub(crate) fn read_output<F: Folder>(
    alloc: Global,
    folder: &mut F,
    output: &OutputFile,
) -> Result<Table, TaskEnd>
    ensures told { Reads (λ table. table) (output_told output.now (F.told folder.old output.now.file)) result }
    ensures within { IfOk result (λ table. is_output_within table ≡ true) }
    ensures read { IfErr result (λ end. IfReadFault end (λ f. (f ≡ output.now.file) × Rose (F.faults folder.old f) (F.faults folder.new f))) }
    ensures same { F.told folder.new ≡ F.told folder.old }
    ensures kept { (n : List ℕ) → F.faults folder.old n ≤ F.faults folder.new n }
    ensures still { UnlessReadFault result ((n : List ℕ) → F.faults folder.new n ≡ F.faults folder.old n) }
{
    let name = Word::new(alloc, b"out")?;
    let bytes = read_file(alloc, folder, output.file.as_slice())?;
    let size = Size {
        columns: MOST_OUTPUT_COLUMNS as u32,
        rows: MOST_OUTPUT_ROWS as u32,
    };
    match read_table(alloc, name, size, &output.types, bytes.as_slice()) {
        Ok(table) => Ok(table),
        Err(stop) => Err(end_of(alloc, &output.file, "output.types", stop)),
    }
}
