ghost use Rattle.std.specs.Prelude.{◌≡◌, IfOk, map};
ghost use Rattle.toml.specs.View.{table_view, view};
ghost use Rattle.first_fault.specs.Answer.{Reads};
ghost use Rattle.task_file.specs.TaskFile.{all_some, type_named, type_of, types_at, types_of};

use first_fault::Stop;
use sqlite_items::Items;
use std::alloc::Global;
use toml::{Table, Value};
use toml_keys::{KeyFault, array_of, bad_key, value_at};
use value_core::{ColType, OutOfMemory};

// The type of this name.
fn type_named(name: &str) -> Option<ColType>
    ensures { result ≡ type_named name.now }
{
    if name == "int" {
        return Some(ColType::Int);
    }
    if name == "text" {
        return Some(ColType::Text);
    }
    None
}

// The type that a value names.
#[tactic(auto, unfolding(crate::specs::TaskFile::type_of))]
fn type_of(value: &Value) -> Option<ColType>
    ensures { result ≡ type_of (view value.now) }
{
    type_named(value.as_str()?)
}

// The types that these values name, if each names one.
fn read_each(alloc: Global, values: &[Value]) -> Result<Option<Items<ColType>>, OutOfMemory>
    ensures { IfOk result (λ types. types ≡ all_some (map type_of (map view values.now))) }
{
    let mut types = Items::new(alloc);
    for value in values {
        let Some(kind) = type_of(value) else {
            return Ok(None);
        };
        types.push(kind)?;
    }
    Ok(Some(types))
}

// The types that a value names, of which there are 1 to `most`.
#[tactic(auto, unfolding(crate::specs::TaskFile::types_of))]
fn types_of(
    alloc: Global,
    value: &Value,
    most: usize,
) -> Result<Option<Items<ColType>>, OutOfMemory>
    ensures { IfOk result (λ types. types ≡ types_of most (view value.now)) }
{
    let Some(values) = array_of(value, 1, most) else {
        return Ok(None);
    };
    read_each(alloc, values)
}

// The types that a table declares, if it declares some, of which there are 1 to `most`.
#[tactic(auto, unfolding(crate::specs::TaskFile::types_at, toml_keys::specs::Keys::optional))]
pub(crate) fn types_at(
    alloc: Global,
    table: &Table,
    most: usize,
) -> Result<Option<Items<ColType>>, Stop<KeyFault>>
    ensures { Reads result (types_at most (table_view table.now)) }
{
    let Some(value) = value_at(table, "types") else {
        return Ok(None);
    };
    match types_of(alloc, value, most)? {
        Some(types) => Ok(Some(types)),
        None => Err(bad_key(alloc, "types")),
    }
}
