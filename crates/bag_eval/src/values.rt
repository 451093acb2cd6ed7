ghost use Rattle.std.specs.Prelude.{◌≡◌, ◌<◌, ◌^◌, length, IfOk, Some, None, MatchOption};
ghost use Rattle.std.specs.List.{list_any};
ghost use Rattle.value_core.specs.Value.{same, order};
ghost use Rattle.query_core.specs.Groups.{number_of, exact_sum, sum_of, distinct_values, smaller, larger, smallest, largest};

use std::alloc::Global;
use std::cmp::Ordering;
use value_core::{OutOfMemory, Value, order, same};

// Whether a value is among these values.
fn has_value(values: &[Value], value: &Value) -> bool
    ensures { result ≡ list_any (λ v. same v value.now) values.now }
{
    values.iter().any(|v| same(v, value))
}

// How many distinct values there are: those that are the first of their kind.
pub(crate) fn count_distinct(values: &[Value]) -> usize
    ensures value { result ≡ length (distinct_values values.now) }
    ensures bound { result < 2 ^ 63 }
{
    let mut count = 0;
    for i in 0..values.len() {
        if !has_value(&values[..i], &values[i]) {
            count += 1;
        }
    }
    count
}

// The number that a value is, 0 where it is none.
fn number_of(value: &Value) -> i64
    ensures { result ≡ number_of value.now }
{
    match value {
        Value::Int(number) => *number,
        Value::Null | Value::Text(_) => 0,
    }
}

// The exact sum of some values, which 128 bits always hold.
fn exact_sum(values: &[Value]) -> i128
    ensures { result ≡ exact_sum values.now }
{
    let mut total: i128 = 0;
    for value in values {
        total += i128::from(number_of(value));
    }
    total
}

// The sum of some values: NULL where there is no value, and none at all where it leaves 64 bits.
pub(crate) fn sum_of(values: &[Value]) -> Option<Value>
    ensures { result ≡ sum_of values.now }
{
    if values.is_empty() {
        return Some(Value::Null);
    }
    match i64::try_from(exact_sum(values)) {
        Ok(total) => Some(Value::Int(total)),
        Err(_) => None,
    }
}

// The smaller of two values.
fn smaller<'a>(a: &'a Value, b: &'a Value) -> &'a Value
    ensures { result.now ≡ smaller a.now b.now }
{
    if order(b, a) == Ordering::Less { b } else { a }
}

// The larger of two values.
fn larger<'a>(a: &'a Value, b: &'a Value) -> &'a Value
    ensures { result.now ≡ larger a.now b.now }
{
    if order(a, b) == Ordering::Less { b } else { a }
}

// The smallest of some values, NULL where there is none.
pub(crate) fn smallest(alloc: Global, values: &[Value]) -> Result<Value, OutOfMemory>
    ensures { IfOk result (λ v. v ≡ smallest values.now) }
{
    let Some(mut best) = values.first() else {
        return Ok(Value::Null);
    };
    for value in &values[1..] {
        best = smaller(best, value);
    }
    best.copy(alloc)
}

// The largest of some values, NULL where there is none.
pub(crate) fn largest(alloc: Global, values: &[Value]) -> Result<Value, OutOfMemory>
    ensures { IfOk result (λ v. v ≡ largest values.now) }
{
    let Some(mut best) = values.first() else {
        return Ok(Value::Null);
    };
    for value in &values[1..] {
        best = larger(best, value);
    }
    best.copy(alloc)
}
