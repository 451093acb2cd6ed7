ghost use Rattle.std.specs.Prelude.{◌≡◌, ◌++◌, true, filter, map, length, IfOk};
ghost use Rattle.std.specs.Cmp.Lexicographic.{pointwise};
ghost use Rattle.value_core.specs.Value.{same_type};
ghost use Rattle.predicate_core.specs.Truth.{keeps};
ghost use Rattle.table_core.specs.Rows.{types_of};
ghost use Rattle.query_core.specs.Firsts.{united};
ghost use Rattle.query_core.specs.Joins.{joined, left_joined};
ghost use Rattle.query_core.specs.Groups.{grouped};
ghost use Rattle.query_core.specs.Meaning.{type_at, group_types, given_rows};
ghost use Rattle.bag_eval.specs.Results.{result_table, evaluated, uniting};

use crate::eval::Eval;
use crate::filter::keep_rows;
use crate::group::group_tuples;
use crate::join::{join_pairs, left_join_pairs};
use crate::result::{evaluated, result_table};
use crate::select::{first_rows, select_rows};
use crate::union::unite_rows;
use predicate_core::Pred;
use query_core::{Agg, Uniting, group_types, picked_types, table_types};
use sqlite_items::Items;
use std::alloc::Global;
use table_core::{Table, Tuple};
use value_core::{ColType, OutOfMemory, Value};

/// The rows of a table that a predicate keeps.
pub fn filter_rows(
    alloc: Global,
    constants: &[Value],
    child: &Table,
    pred: &Pred,
) -> Result<Table, OutOfMemory>
    ensures { IfOk result (λ table. table ≡ result_table (types_of child.now) (filter (keeps constants.now pred.now) child.now.rows)) }
{
    let types = table_types(alloc, child)?;
    let rows = keep_rows(alloc, constants, child.tuples(), pred)?;
    result_table(alloc, types.as_slice(), rows)
}

// The types of the columns of two tables side by side.
fn pair_types(alloc: Global, left: &Table, right: &Table) -> Result<Items<ColType>, OutOfMemory>
    ensures { IfOk result (λ types. types ≡ types_of left.now ++ types_of right.now) }
{
    let mut types = table_types(alloc, left)?;
    types.append(table_types(alloc, right)?)?;
    Ok(types)
}

/// The pairs of rows of two tables that a predicate keeps.
pub fn join_rows(
    alloc: Global,
    constants: &[Value],
    left: &Table,
    right: &Table,
    pred: &Pred,
) -> Result<Table, OutOfMemory>
    ensures { IfOk result (λ table. table ≡ result_table (types_of left.now ++ types_of right.now) (joined constants.now pred.now left.now.rows right.now.rows)) }
{
    let types = pair_types(alloc, left, right)?;
    let rows = join_pairs(alloc, constants, left.tuples(), right.tuples(), pred)?;
    result_table(alloc, types.as_slice(), rows)
}

/// Each left row's pairs that a predicate keeps, or, where it has none, the row padded with NULLs.
pub fn left_rows(
    alloc: Global,
    constants: &[Value],
    left: &Table,
    right: &Table,
    pred: &Pred,
) -> Result<Table, OutOfMemory>
    ensures { IfOk result (λ table. table ≡ result_table (types_of left.now ++ types_of right.now) (left_joined constants.now pred.now (length (types_of right.now)) left.now.rows right.now.rows)) }
{
    let types = pair_types(alloc, left, right)?;
    let width = right.columns().len();
    let rows = left_join_pairs(alloc, constants, width, left.tuples(), right.tuples(), pred)?;
    result_table(alloc, types.as_slice(), rows)
}

/// The groups of a table's rows, each with what the aggregate gives.
pub fn group_rows(
    alloc: Global,
    child: &Table,
    keys: &[usize],
    agg: &Agg,
) -> Result<Eval, OutOfMemory>
    ensures { IfOk result (λ eval. eval ≡ evaluated (group_types (types_of child.now) keys.now agg.now) (grouped keys.now agg.now child.now.rows)) }
{
    let types = table_types(alloc, child)?;
    let types = group_types(alloc, types.as_slice(), keys, agg)?;
    let rows = group_tuples(alloc, keys, agg, child.tuples())?;
    evaluated(alloc, types.as_slice(), rows)
}

// How two parts are united.
fn uniting(all: bool) -> Uniting
    ensures { result ≡ uniting all }
{
    if all { Uniting::All } else { Uniting::Firsts }
}

/// The rows of two tables whose columns have equal types: all of them, or each once.
pub fn union_rows(
    alloc: Global,
    left: &Table,
    right: &Table,
    all: bool,
) -> Result<Table, OutOfMemory>
    requires { pointwise same_type (types_of left.now) (types_of right.now) ≡ true }
    ensures { IfOk result (λ table. table ≡ result_table (types_of left.now) (united (uniting all) left.now.rows right.now.rows)) }
{
    let types = table_types(alloc, left)?;
    let rows = unite_rows(alloc, uniting(all), left.tuples(), right.tuples())?;
    result_table(alloc, types.as_slice(), rows)
}

// The rows of a body, projected to these columns, and each kept once where distinct.
pub(crate) fn given_rows(
    alloc: Global,
    picks: &[usize],
    distinct: bool,
    body: &[Tuple],
) -> Result<Items<Tuple>, OutOfMemory>
    ensures { IfOk result (λ rows. rows ≡ given_rows picks.now distinct body.now) }
{
    let selected = select_rows(alloc, picks, body)?;
    if distinct {
        first_rows(alloc, selected.as_slice())
    } else {
        Ok(selected)
    }
}

/// The rows of a table, projected to these columns, and each kept once where distinct.
pub fn project(
    alloc: Global,
    child: &Table,
    picks: &[usize],
    distinct: bool,
) -> Result<Table, OutOfMemory>
    ensures { IfOk result (λ table. table ≡ result_table (map (type_at (types_of child.now)) picks.now) (given_rows picks.now distinct child.now.rows)) }
{
    let types = table_types(alloc, child)?;
    let types = picked_types(alloc, types.as_slice(), picks)?;
    let rows = given_rows(alloc, picks, distinct, child.tuples())?;
    result_table(alloc, types.as_slice(), rows)
}
