ghost use Rattle.std.specs.Prelude.{◌≡◌, ◌≤◌, IfOk, length, map, option_map, string_bytes};
ghost use Rattle.toml.specs.Data.{as_table, get_member};
ghost use Rattle.toml.specs.View.{table_view, view};
ghost use Rattle.first_fault.specs.Reading.{found_or};
ghost use Rattle.first_fault.specs.Answer.{Reads, ReadsAs};
ghost use Rattle.toml_keys.specs.Keys.{is_among, known, least, number_of, optional, required, text_of, unknown_keys};
ghost use Rattle.toml_keys.specs.declared.fault.KeyFault.TheVariants.{MissingKey};

use crate::fault::{KeyFault, bad_key, missing_key, unknown_key};
use crate::values::{number_of, text_of};
use first_fault::Stop;
use std::alloc::Global;
use toml::{Table, Value};

/// The least and the greatest of the numbers that a value may be.
#[derive(Clone, Copy, Debug)]
pub struct Bounds {
    pub low: u32,
    pub high: u32,
}

/// Whether the key is one of these.
pub fn is_among(key: &str, allowed: &[&str]) -> bool
    ensures { result ≡ is_among (map (λ name. name.now) allowed.now) key.now }
{
    allowed.iter().any(|name| key == *name)
}

// The key of the table that is none of these and comes first by its bytes.
fn least_unknown<'a>(table: &'a Table, allowed: &[&str]) -> Option<&'a String>
    ensures { option_map (λ key. string_bytes key.now) result ≡ least (unknown_keys (map (λ name. name.now) allowed.now) (table_view table.now)) }
{
    table.keys().find(|key| !is_among(key.as_str(), allowed))
}

/// That the table has no key but these, or else its least unknown key.
pub fn check_known(alloc: Global, table: &Table, allowed: &[&str]) -> Result<(), Stop<KeyFault>>
    ensures { ReadsAs (λ _. table_view table.now) result (known (map (λ name. name.now) allowed.now) (table_view table.now)) }
{
    match least_unknown(table, allowed) {
        None => Ok(()),
        Some(key) => Err(unknown_key(alloc, key.as_str())),
    }
}

/// The value at a key, if there is one.
pub fn value_at<'a>(table: &'a Table, key: &str) -> Option<&'a Value>
    ensures { option_map (λ value. view value.now) result ≡ get_member key.now (table_view table.now) }
{
    table.get(key)
}

/// The value at a key that has to be there.
pub fn present<'a>(alloc: Global, table: &'a Table, key: &str) -> Result<&'a Value, Stop<KeyFault>>
    ensures { ReadsAs (λ value. view value.now) result (found_or (MissingKey key.now) (get_member key.now (table_view table.now))) }
{
    match value_at(table, key) {
        Some(value) => Ok(value),
        None => Err(missing_key(alloc, key)),
    }
}

/// The bytes of the text at a key, which has 1 to `longest`.
#[tactic(auto, unfolding(crate::specs::Keys::required))]
pub fn text_at<'a>(
    alloc: Global,
    table: &'a Table,
    key: &str,
    longest: usize,
) -> Result<&'a [u8], Stop<KeyFault>>
    ensures value { ReadsAs (λ text. text.now) result (required key.now (text_of longest) (table_view table.now)) }
    ensures within { IfOk result (λ text. (1 ≤ length text.now) × (length text.now ≤ longest)) }
{
    match text_of(present(alloc, table, key)?, longest) {
        Some(text) => Ok(text),
        None => Err(bad_key(alloc, key)),
    }
}

/// The table at a key.
#[tactic(auto, unfolding(crate::specs::Keys::required))]
pub fn table_at<'a>(alloc: Global, table: &'a Table, key: &str) -> Result<&'a Table, Stop<KeyFault>>
    ensures { ReadsAs (λ found. table_view found.now) result (required key.now as_table (table_view table.now)) }
{
    match present(alloc, table, key)?.as_table() {
        Some(found) => Ok(found),
        None => Err(bad_key(alloc, key)),
    }
}

/// The whole number at a key, which lies within the bounds, or the default where the key is absent.
#[tactic(auto, unfolding(crate::specs::Keys::optional))]
pub fn number_or(
    alloc: Global,
    table: &Table,
    key: &str,
    default: u32,
    bounds: Bounds,
) -> Result<u32, Stop<KeyFault>>
    ensures { Reads result (optional key.now default (number_of bounds.low bounds.high) (table_view table.now)) }
{
    let Some(value) = value_at(table, key) else {
        return Ok(default);
    };
    match number_of(value, bounds.low, bounds.high) {
        Some(number) => Ok(number),
        None => Err(bad_key(alloc, key)),
    }
}
