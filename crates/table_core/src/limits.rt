ghost use Rattle.std.specs.Prelude.{◌≡◌, not};
ghost use Rattle.std.specs.List.{list_all, list_any};
ghost use Rattle.value_core.specs.Value.{same, is_null};
ghost use Rattle.table_core.specs.Limits.{within, all_distinct, same_column_name, same_table_name, is_table_within, is_output_within, are_inputs_within, are_constants_within, first_bad_number, first_bad_part};

use crate::column::Column;
use crate::table::Table;
use crate::task::TaskParts;
use value_core::{Value, same};

/// The most inputs of a task.
pub const MOST_INPUTS: usize = 4;
/// The most columns of an input.
pub const MOST_COLUMNS: usize = 6;
/// The most rows of an input.
pub const MOST_ROWS: usize = 16;
/// The most columns of the output.
pub const MOST_OUTPUT_COLUMNS: usize = 4;
/// The most rows of the output.
pub const MOST_OUTPUT_ROWS: usize = 64;
/// The most constants.
pub const MOST_CONSTANTS: usize = 6;
/// The most operators of a query.
pub const MOST_OPS: u32 = 4;
/// The most leaves of a query.
pub const MOST_LEAVES: u32 = 3;
/// The most atoms of a predicate.
pub const MOST_ATOMS: u32 = 3;
/// The most answers that are printed.
pub const MOST_SHOWN: u32 = 1000;
/// The largest budget.
pub const LARGEST_BUDGET: u64 = 400_000;
/// The most bytes of a file.
pub const LONGEST_FILE: usize = 65_536;
/// The most bytes of a file's name.
pub const LONGEST_FILE_NAME: usize = 255;

// Whether a column's name stands among these columns.
fn has_column_name(columns: &[Column], column: &Column) -> bool
    ensures { result ≡ list_any (λ c. same_column_name c column.now) columns.now }
{
    columns
        .iter()
        .any(|c| c.name.as_slice() == column.name.as_slice())
}

// Whether no two columns have the same name.
fn are_columns_distinct(columns: &[Column]) -> bool
    ensures { result ≡ all_distinct same_column_name columns.now }
{
    for i in 0..columns.len() {
        if has_column_name(&columns[i + 1..], &columns[i]) {
            return false;
        }
    }
    true
}

// Whether a table's name stands among these tables.
fn has_table_name(tables: &[Table], table: &Table) -> bool
    ensures { result ≡ list_any (λ t. same_table_name t table.now) tables.now }
{
    tables
        .iter()
        .any(|t| t.name().as_slice() == table.name().as_slice())
}

// Whether no two tables have the same name.
fn are_tables_distinct(tables: &[Table]) -> bool
    ensures { result ≡ all_distinct same_table_name tables.now }
{
    for i in 0..tables.len() {
        if has_table_name(&tables[i + 1..], &tables[i]) {
            return false;
        }
    }
    true
}

// Whether a value stands among these values.
fn has_value(values: &[Value], value: &Value) -> bool
    ensures { result ≡ list_any (λ v. same v value.now) values.now }
{
    values.iter().any(|v| same(v, value))
}

// Whether no two values are the same.
fn are_values_distinct(values: &[Value]) -> bool
    ensures { result ≡ all_distinct same values.now }
{
    for i in 0..values.len() {
        if has_value(&values[i + 1..], &values[i]) {
            return false;
        }
    }
    true
}

// Whether a table has 1 to `widest` columns of distinct names and at most `longest` rows.
fn is_table_within(widest: usize, longest: usize, table: &Table) -> bool
    ensures { result ≡ is_table_within widest longest table.now }
{
    let width = table.columns().len();
    if width < 1 || width > widest {
        return false;
    }
    if table.tuples().len() > longest {
        return false;
    }
    are_columns_distinct(table.columns())
}

// Whether each input is within its limits.
fn is_each_input_within(inputs: &[Table]) -> bool
    ensures { result ≡ list_all (is_table_within MOST_COLUMNS MOST_ROWS) inputs.now }
{
    inputs
        .iter()
        .all(|table| is_table_within(MOST_COLUMNS, MOST_ROWS, table))
}

// Whether there are inputs, and not too many, of distinct names, each within its limits.
fn are_inputs_within(inputs: &[Table]) -> bool
    ensures { result ≡ are_inputs_within inputs.now }
{
    if inputs.is_empty() || inputs.len() > MOST_INPUTS {
        return false;
    }
    if !is_each_input_within(inputs) {
        return false;
    }
    are_tables_distinct(inputs)
}

// Whether an output is within its limits.
fn is_output_within(output: &Table) -> bool
    ensures { result ≡ is_output_within output.now }
{
    is_table_within(MOST_OUTPUT_COLUMNS, MOST_OUTPUT_ROWS, output)
}

// Whether no value is NULL.
fn has_no_null(values: &[Value]) -> bool
    ensures { result ≡ list_all (λ c. not (is_null c)) values.now }
{
    values.iter().all(|value| !value.is_null())
}

// Whether there are not too many constants, all distinct, none of them NULL.
fn are_constants_within(constants: &[Value]) -> bool
    ensures { result ≡ are_constants_within constants.now }
{
    if constants.len() > MOST_CONSTANTS {
        return false;
    }
    if !has_no_null(constants) {
        return false;
    }
    are_values_distinct(constants)
}

/// The first part of a task that is out of its limits.
pub fn first_bad_part(parts: &TaskParts) -> Option<u8>
    ensures { result ≡ first_bad_part parts.now }
{
    if !are_inputs_within(parts.inputs.as_slice()) {
        return Some(1);
    }
    if !is_output_within(&parts.output) {
        return Some(2);
    }
    if !are_constants_within(parts.constants.as_slice()) {
        return Some(3);
    }
    first_bad_number(parts)
}

// The first number of a task that is out of its limits.
fn first_bad_number(parts: &TaskParts) -> Option<u8>
    ensures { result ≡ first_bad_number parts.now }
{
    if parts.ops > MOST_OPS {
        return Some(5);
    }
    if parts.leaves < 1 || parts.leaves > MOST_LEAVES {
        return Some(6);
    }
    if parts.atoms < 1 || parts.atoms > MOST_ATOMS {
        return Some(7);
    }
    if parts.show < 1 || parts.show > MOST_SHOWN {
        return Some(8);
    }
    if parts.budget < 1 || parts.budget > LARGEST_BUDGET {
        return Some(9);
    }
    None
}
