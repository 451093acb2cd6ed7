ghost use Rattle.std.specs.Prelude.{◌≡◌, IfOk, codes, map, []};
ghost use Rattle.std.specs.Str.{bytes_eq};
ghost use Rattle.toml.specs.View.{table_view, view};
ghost use Rattle.first_fault.specs.Answer.{Reads};
ghost use Rattle.toml_keys.specs.Keys.{is_among, optional};
ghost use Rattle.task_file.specs.TaskFile.{aggregate_name_of, aggregates_named, aggregates_of, all_distinct, all_some};

use first_fault::Stop;
use sqlite_items::Items;
use std::alloc::Global;
use table_core::AggSet;
use toml::{Table, Value};
use toml_keys::{KeyFault, array_of, bad_key, is_among, value_at};
use value_core::{Bytes, OutOfMemory};

// As many as there are aggregates.
const MOST_AGGREGATES: usize = 6;

// The name of an aggregate that a value is, if it is one.
#[tactic(auto, unfolding(crate::specs::TaskFile::aggregate_name_of))]
fn aggregate_name_of(alloc: Global, value: &Value) -> Result<Option<Bytes>, OutOfMemory>
    ensures { IfOk result (λ name. name ≡ aggregate_name_of (view value.now)) }
{
    let Some(name) = value.as_str() else {
        return Ok(None);
    };
    if !is_among(
        name,
        &["count(*)", "count", "count distinct", "sum", "min", "max"],
    ) {
        return Ok(None);
    }
    Ok(Some(Bytes::of(alloc, name.as_bytes())?))
}

// The names of aggregates that these values are, if each is one.
fn read_each(alloc: Global, values: &[Value]) -> Result<Option<Items<Bytes>>, OutOfMemory>
    ensures { IfOk result (λ names. names ≡ all_some (map aggregate_name_of (map view values.now))) }
{
    let mut names = Items::new(alloc);
    for value in values {
        let Some(name) = aggregate_name_of(alloc, value)? else {
            return Ok(None);
        };
        names.push(name)?;
    }
    Ok(Some(names))
}

// Whether a name is one of these.
fn has_name(names: &[Bytes], name: &[u8]) -> bool
    ensures { result ≡ is_among names.now name.now }
{
    names.iter().any(|other| name == other.as_slice())
}

// Whether no two of the names are the same.
fn all_distinct(names: &[Bytes]) -> bool
    ensures { result ≡ all_distinct bytes_eq names.now }
{
    let mut rest = names;
    while let Some((name, others)) = rest.split_first() {
        if has_name(others, name.as_slice()) {
            return false;
        }
        rest = others;
    }
    true
}

// The aggregates of these names.
fn aggregates_named(names: &[Bytes]) -> AggSet
    ensures { result ≡ aggregates_named names.now }
{
    AggSet {
        count_all: has_name(names, b"count(*)"),
        count: has_name(names, b"count"),
        count_distinct: has_name(names, b"count distinct"),
        sum: has_name(names, b"sum"),
        min: has_name(names, b"min"),
        max: has_name(names, b"max"),
    }
}

// The aggregates of an array, if it is one of distinct names of aggregates.
#[tactic(auto, unfolding(crate::specs::TaskFile::aggregates_of))]
fn aggregates_of(alloc: Global, value: &Value) -> Result<Option<AggSet>, OutOfMemory>
    ensures { IfOk result (λ aggregates. aggregates ≡ aggregates_of (view value.now)) }
{
    let Some(values) = array_of(value, 0, MOST_AGGREGATES) else {
        return Ok(None);
    };
    let Some(names) = read_each(alloc, values)? else {
        return Ok(None);
    };
    if all_distinct(names.as_slice()) {
        Ok(Some(aggregates_named(names.as_slice())))
    } else {
        Ok(None)
    }
}

/// The aggregates of a task: none where the key is absent.
#[tactic(auto, unfolding(toml_keys::specs::Keys::optional))]
pub(crate) fn aggregates_at(alloc: Global, table: &Table) -> Result<AggSet, Stop<KeyFault>>
    ensures { Reads result (optional (codes "aggregates") (aggregates_named []) aggregates_of (table_view table.now)) }
{
    let Some(value) = value_at(table, "aggregates") else {
        return Ok(AggSet::NONE);
    };
    match aggregates_of(alloc, value)? {
        Some(aggregates) => Ok(aggregates),
        None => Err(bad_key(alloc, "aggregates")),
    }
}
