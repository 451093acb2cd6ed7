ghost use Rattle.std.specs.Prelude.{◌≡◌, ◌∷◌, ◌++◌, [], not, filter, IfOk, OnOk};
ghost use Rattle.std.specs.List.{list_any};
ghost use Rattle.value_core.specs.Value.{same, is_null};
ghost use Rattle.query_core.specs.Groups.{number_of};
ghost use Rattle.over_cells.specs.Cells.{is_from, is_within};
ghost use Rattle.over_cells.specs.Aggregates.{distinct_after, distinct, below_0, above_0, negatives, positives, cut, may_be_null};

use sqlite_items::Items;
use std::alloc::Global;
use value_core::{OutOfMemory, Value, same};

// Copies of these values.
pub(crate) fn copied(alloc: Global, values: &[Value]) -> Result<Items<Value>, OutOfMemory>
    ensures { IfOk result (λ out. out ≡ values.now) }
{
    let mut out = Items::new(alloc);
    for value in values {
        out.push(value.copy(alloc)?)?;
    }
    Ok(out)
}

// Whether a value is among these values.
fn has_value(values: &[Value], value: &Value) -> bool
    ensures { result ≡ list_any (same value.now) values.now }
{
    values.iter().any(|other| same(value, other))
}

// Whether one of these values is NULL.
fn has_null(values: &[Value]) -> bool
    ensures { result ≡ list_any is_null values.now }
{
    values.iter().any(|value| value.is_null())
}

// Whether a value is NULL where it may be, or one of these.
pub(crate) fn is_from(values: &[Value], null: bool, value: &Value) -> bool
    ensures { result ≡ is_from values.now null value.now }
{
    if value.is_null() {
        null
    } else {
        has_value(values, value)
    }
}

// Whether a value is NULL where it may be, or a number within these bounds.
pub(crate) fn is_within(lo: i64, hi: i64, null: bool, value: &Value) -> bool
    ensures { result ≡ is_within lo hi null value.now }
{
    match value {
        Value::Null => null,
        Value::Int(number) => lo <= *number && *number <= hi,
        Value::Text(_) => false,
    }
}

// Appends a copy of a value, unless it is NULL or among the values so far.
fn push_distinct(alloc: Global, out: &mut Items<Value>, value: &Value) -> Result<(), OutOfMemory>
    ensures { OnOk result (out.new ≡ out.old ++ distinct_after out.old (filter (λ v. not (is_null v)) (value.now ∷ []))) }
{
    if !value.is_null() && !has_value(out.as_slice(), value) {
        out.push(value.copy(alloc)?)?;
    }
    Ok(())
}

// The values that aren't NULL, each once, at its first place.
pub(crate) fn distinct(alloc: Global, values: &[Value]) -> Result<Items<Value>, OutOfMemory>
    ensures { IfOk result (λ out. out ≡ distinct values.now) }
{
    let mut out = Items::new(alloc);
    for value in values {
        push_distinct(alloc, &mut out, value)?;
    }
    Ok(out)
}

// A number where it is below 0, else 0.
fn below_0(value: &Value) -> i64
    ensures { result ≡ below_0 (number_of value.now) }
{
    match value {
        Value::Int(number) if *number < 0 => *number,
        _ => 0,
    }
}

// A number where it is above 0, else 0.
fn above_0(value: &Value) -> i64
    ensures { result ≡ above_0 (number_of value.now) }
{
    match value {
        Value::Int(number) if *number > 0 => *number,
        _ => 0,
    }
}

// The sum of the numbers below 0, which 128 bits always hold.
fn negatives(values: &[Value]) -> i128
    ensures { result ≡ negatives values.now }
{
    let mut total: i128 = 0;
    for value in values {
        total += i128::from(below_0(value));
    }
    total
}

// The sum of the numbers above 0, which 128 bits always hold.
fn positives(values: &[Value]) -> i128
    ensures { result ≡ positives values.now }
{
    let mut total: i128 = 0;
    for value in values {
        total += i128::from(above_0(value));
    }
    total
}

// A number cut to 64 bits.
fn cut(number: i128) -> i64
    ensures { result ≡ cut number }
{
    if number < i128::from(i64::MIN) {
        return i64::MIN;
    }
    if number > i128::from(i64::MAX) {
        return i64::MAX;
    }
    number as i64
}

// The least sum of some of these values, cut to 64 bits.
pub(crate) fn least_sum(values: &[Value]) -> i64
    ensures { result ≡ cut (negatives values.now) }
{
    cut(negatives(values))
}

// The greatest sum of some of these values, cut to 64 bits.
pub(crate) fn greatest_sum(values: &[Value]) -> i64
    ensures { result ≡ cut (positives values.now) }
{
    cut(positives(values))
}

// Whether an aggregate of some of these values may be NULL: one of them is, or all rows may be left out.
pub(crate) fn may_be_null(keyed: bool, values: &[Value]) -> bool
    ensures { result ≡ may_be_null keyed values.now }
{
    !keyed || has_null(values)
}
