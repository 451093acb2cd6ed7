ghost use Rattle.std.specs.Prelude.{◌≡◌, IfOk, codes, map, []};
ghost use Rattle.std.specs.List.{list_any};
ghost use Rattle.toml.specs.View.{table_view, view};
ghost use Rattle.value_core.specs.Value.{same};
ghost use Rattle.first_fault.specs.Answer.{Reads};
ghost use Rattle.toml_keys.specs.Keys.{optional};
ghost use Rattle.task_file.specs.TaskFile.{all_distinct, all_some, constant_of, constants_of};

use crate::texts::word;
use first_fault::Stop;
use sqlite_items::Items;
use std::alloc::Global;
use table_core::MOST_CONSTANTS;
use toml::Table;
use toml_keys::{KeyFault, array_of, bad_key, text_of, value_at};
use value_core::{LONGEST_WORD, OutOfMemory, Value, same};

// The constant that a value is, if it is one.
#[tactic(auto, unfolding(crate::specs::TaskFile::constant_of))]
fn constant_of(alloc: Global, value: &toml::Value) -> Result<Option<Value>, OutOfMemory>
    ensures { IfOk result (λ constant. constant ≡ constant_of (view value.now)) }
{
    if let Some(number) = value.as_integer() {
        return Ok(Some(Value::Int(number)));
    }
    let Some(bytes) = text_of(value, LONGEST_WORD) else {
        return Ok(None);
    };
    Ok(Some(Value::Text(word(alloc, bytes)?)))
}

// The constants that these values are, if each is one.
fn read_each(alloc: Global, values: &[toml::Value]) -> Result<Option<Items<Value>>, OutOfMemory>
    ensures { IfOk result (λ constants. constants ≡ all_some (map constant_of (map view values.now))) }
{
    let mut constants = Items::new(alloc);
    for value in values {
        let Some(constant) = constant_of(alloc, value)? else {
            return Ok(None);
        };
        constants.push(constant)?;
    }
    Ok(Some(constants))
}

// Whether the value is the same as one of the others.
fn is_among(value: &Value, others: &[Value]) -> bool
    ensures { result ≡ list_any (same value.now) others.now }
{
    others.iter().any(|other| same(value, other))
}

// Whether no two of the values are the same.
fn all_distinct(values: &[Value]) -> bool
    ensures { result ≡ all_distinct same values.now }
{
    let mut rest = values;
    while let Some((value, others)) = rest.split_first() {
        if is_among(value, others) {
            return false;
        }
        rest = others;
    }
    true
}

// The constants of an array, if it is one of distinct constants.
#[tactic(auto, unfolding(crate::specs::TaskFile::constants_of))]
fn constants_of(alloc: Global, value: &toml::Value) -> Result<Option<Items<Value>>, OutOfMemory>
    ensures { IfOk result (λ constants. constants ≡ constants_of (view value.now)) }
{
    let Some(values) = array_of(value, 0, MOST_CONSTANTS) else {
        return Ok(None);
    };
    let Some(constants) = read_each(alloc, values)? else {
        return Ok(None);
    };
    if all_distinct(constants.as_slice()) {
        Ok(Some(constants))
    } else {
        Ok(None)
    }
}

/// The constants of a task, in the file's order: none where the key is absent.
#[tactic(auto, unfolding(toml_keys::specs::Keys::optional))]
pub(crate) fn constants_at(alloc: Global, table: &Table) -> Result<Items<Value>, Stop<KeyFault>>
    ensures { Reads result (optional (codes "constants") [] constants_of (table_view table.now)) }
{
    let Some(value) = value_at(table, "constants") else {
        return Ok(Items::new(alloc));
    };
    match constants_of(alloc, value)? {
        Some(constants) => Ok(constants),
        None => Err(bad_key(alloc, "constants")),
    }
}
