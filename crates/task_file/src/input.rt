ghost use Rattle.std.specs.Prelude.{◌≡◌, codes, map, option_map, IfSome, []};
ghost use Rattle.std.specs.List.{list_all};
ghost use Rattle.std.specs.Option.{is_some};
ghost use Rattle.toml.specs.Data.{as_table};
ghost use Rattle.toml.specs.View.{table_view, view};
ghost use Rattle.value_core.specs.Word.{IsWord};
ghost use Rattle.first_fault.specs.Answer.{Reads};
ghost use Rattle.toml_keys.specs.Keys.{required};
ghost use Rattle.task_file.specs.TaskFile.{input_in, input_of, inputs_after, inputs_of, is_named, name_of, tables_of};

use crate::table_file::InputFile;
use crate::texts::{file_at, word};
use crate::types::types_at;
use first_fault::Stop;
use sqlite_items::Items;
use std::alloc::Global;
use table_core::{MOST_COLUMNS, MOST_INPUTS};
use toml::{Table, Value};
use toml_keys::{KeyFault, array_of, bad_key, check_known, present, text_of, under};
use value_core::{LONGEST_WORD, Word};

// Whether one of these inputs has the name.
fn is_named(inputs: &[InputFile], name: &[u8]) -> bool
    ensures { result ≡ is_named inputs.now name.now }
{
    inputs.iter().any(|input| input.name.as_slice() == name)
}

// The bytes of a name that none of the earlier inputs has.
#[tactic(auto, unfolding(crate::specs::TaskFile::name_of))]
fn name_of<'a>(earlier: &[InputFile], value: &'a Value) -> Option<&'a [u8]>
    ensures name { option_map (λ name. name.now) result ≡ name_of earlier.now (view value.now) }
    ensures word { IfSome result (λ name. IsWord name.now) }
{
    let name = text_of(value, LONGEST_WORD)?;
    if is_named(earlier, name) {
        None
    } else {
        Some(name)
    }
}

// The name of a table, which none of the earlier inputs has.
#[tactic(auto, unfolding(toml_keys::specs::Keys::required))]
fn name_at(alloc: Global, earlier: &[InputFile], table: &Table) -> Result<Word, Stop<KeyFault>>
    ensures { Reads result (required (codes "name") (name_of earlier.now) (table_view table.now)) }
{
    match name_of(earlier, present(alloc, table, "name")?) {
        Some(name) => Ok(word(alloc, name)?),
        None => Err(bad_key(alloc, "name")),
    }
}

// The input of a table, after these earlier ones.
#[tactic(auto, unfolding(crate::specs::TaskFile::input_in))]
fn input_in(
    alloc: Global,
    earlier: &[InputFile],
    table: &Table,
) -> Result<InputFile, Stop<KeyFault>>
    ensures { Reads result (input_in earlier.now (table_view table.now)) }
{
    check_known(alloc, table, &["name", "file", "types"])?;
    let name = name_at(alloc, earlier, table)?;
    let file = file_at(alloc, table)?;
    let types = types_at(alloc, table, MOST_COLUMNS)?;
    Ok(InputFile { name, file, types })
}

// The input of a value, which is a table, after these earlier ones.
#[tactic(auto, unfolding(crate::specs::TaskFile::input_of))]
fn input_of(
    alloc: Global,
    earlier: &[InputFile],
    value: &Value,
) -> Result<InputFile, Stop<KeyFault>>
    ensures { Reads result (input_of earlier.now (view value.now)) }
{
    let Some(table) = value.as_table() else {
        return Err(bad_key(alloc, "input"));
    };
    match input_in(alloc, earlier, table) {
        Ok(input) => Ok(input),
        Err(stop) => Err(under(alloc, "input.", stop)),
    }
}

// The inputs of these values, each after those before it.
fn read_each(alloc: Global, values: &[Value]) -> Result<Items<InputFile>, Stop<KeyFault>>
    ensures { Reads result (inputs_after [] (map view values.now)) }
{
    let mut inputs = Items::new(alloc);
    for value in values {
        inputs.push(input_of(alloc, inputs.as_slice(), value)?)?;
    }
    Ok(inputs)
}

// Whether a value is a table.
fn is_table(value: &Value) -> bool
    ensures { result ≡ is_some (as_table (view value.now)) }
{
    match value.as_table() {
        Some(_) => true,
        None => false,
    }
}

// Whether all of these values are tables.
fn are_tables(values: &[Value]) -> bool
    ensures { result ≡ list_all (λ value. is_some (as_table (view value))) values.now }
{
    values.iter().all(|value| is_table(value))
}

// The tables of an array of as many as there may be inputs.
#[tactic(auto, using(crate::proofs::Lists::all_of_views), unfolding(crate::specs::TaskFile::tables_of))]
fn tables_of(value: &Value) -> Option<&[Value]>
    ensures { option_map (λ values. map view values.now) result ≡ tables_of (view value.now) }
{
    let values = array_of(value, 1, MOST_INPUTS)?;
    if are_tables(values) {
        Some(values)
    } else {
        None
    }
}

/// The inputs of a task, in the file's order.
#[tactic(auto, unfolding(crate::specs::TaskFile::inputs_of, toml_keys::specs::Keys::required))]
pub(crate) fn inputs_of(alloc: Global, table: &Table) -> Result<Items<InputFile>, Stop<KeyFault>>
    ensures { Reads result (inputs_of (table_view table.now)) }
{
    match tables_of(present(alloc, table, "input")?) {
        Some(values) => read_each(alloc, values),
        None => Err(bad_key(alloc, "input")),
    }
}
