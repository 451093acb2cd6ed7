ghost use Rattle.std.specs.Prelude.{◌≡◌, ◌++◌, IfOk, OnOk, true};
ghost use Rattle.table_core.specs.Rows.{are_typed};
ghost use Rattle.query_core.specs.View.{select};
ghost use Rattle.gen_task.specs.Made.{query, columns_out, rows_out, table_out};

use crate::tables::push_column;
use bag_eval::query_rows;
use predicate_core::{Atom, Pred};
use query_core::{Node, Query};
use sqlite_items::{Boxed, Items};
use std::alloc::Global;
use table_core::{Table, Tuple};
use value_core::{CmpOp, ColType, OutOfMemory, Value, Word};

// The rows of `a` and `b` of the same `grp`, where `val` is more than the constant: their `id` and `tag`.
fn query(alloc: Global) -> Result<Query, OutOfMemory>
    ensures { IfOk result (λ q. select q ≡ query) }
{
    let same_grp = Atom::Cols(1, CmpOp::Eq, 3);
    let large_val = Atom::Const(2, CmpOp::Gt, 0);
    let a = Boxed::new(alloc, Node::Base(0))?;
    let b = Boxed::new(alloc, Node::Base(1))?;
    Ok(Query {
        body: Node::Join(a, b, Pred::And2(same_grp, large_val)),
        map: Items::from_slice(alloc, &[0, 4])?,
        distinct: false,
    })
}

// Copies of these rows.
fn copied_rows(alloc: Global, rows: &[Tuple]) -> Result<Vec<Tuple>, OutOfMemory>
    ensures { IfOk result (λ out. out.items ≡ rows.now) }
{
    let mut out = Vec::new(alloc);
    for row in rows {
        out.push(row.copy(alloc)?)?;
    }
    Ok(out)
}

// What the query gives of these inputs and constants.
#[tactic(auto, unfolding(crate::specs::Made::rows_out))]
fn rows_out(alloc: Global, inputs: &[Table], constants: &[Value]) -> Result<Vec<Tuple>, OutOfMemory>
    ensures { IfOk result (λ rows. rows.items ≡ rows_out inputs.now constants.now) }
{
    let query = query(alloc)?;
    match query_rows(alloc, inputs, constants, &query)? {
        Some(rows) => copied_rows(alloc, rows.as_slice()),
        None => Ok(Vec::new(alloc)),
    }
}

/// The output of a task of these inputs and constants, where what the query gives fits its columns.
pub(crate) fn table_out(
    alloc: Global,
    inputs: &[Table],
    constants: &[Value],
) -> Result<Table, OutOfMemory>
    requires { are_typed columns_out (rows_out inputs.now constants.now) ≡ true }
    ensures { IfOk result (λ table. table ≡ table_out inputs.now constants.now) }
{
    let rows = rows_out(alloc, inputs, constants)?;
    let mut columns = Vec::new(alloc);
    push_column(alloc, &mut columns, b"id", ColType::Int)?;
    push_column(alloc, &mut columns, b"tag", ColType::Text)?;
    let name = Word::new(alloc, b"out")?;
    Ok(Table::with_rows(name, columns, rows))
}
