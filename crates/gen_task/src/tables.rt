ghost use Rattle.std.specs.Prelude.{◌≡◌, ◌∷◌, ◌+◌, ◌++◌, [], IfOk, OnOk, codes};
ghost use Rattle.value_core.specs.Word.{IsWord};
ghost use Rattle.value_core.specs.declared.value.Value.TheVariants.{Text};
ghost use Rattle.gen_task.specs.Draws.{next_state, read_off, state_after};
ghost use Rattle.gen_task.specs.Made.{whole, rows_a, rows_b, table_a, table_b, inputs};

use crate::draws::Draws;
use sqlite_items::Items;
use std::alloc::Global;
use table_core::{Column, Table, Tuple};
use value_core::{ColType, OutOfMemory, Value, Word};

/// A whole number as a value.
pub(crate) fn whole(number: u8) -> Value
    ensures { result ≡ whole number }
{
    Value::Int(i64::from(number))
}

/// Appends a column of this name and type.
pub(crate) fn push_column(
    alloc: Global,
    columns: &mut Vec<Column>,
    name: &[u8],
    kind: ColType,
) -> Result<(), OutOfMemory>
    requires { IsWord name.now }
    ensures { OnOk result (columns.new.items ≡ columns.old.items ++ record { name = name.now; kind = kind } ∷ []) }
{
    let name = Word::new(alloc, name)?;
    columns.push(Column { name, kind })?;
    Ok(())
}

// A row of table `a`: its number and two draws.
fn row_a(alloc: Global, draws: &mut Draws, id: u8) -> Result<Tuple, OutOfMemory>
    ensures row { IfOk result (λ row. row ≡ whole id ∷ whole (read_off (next_state draws.old.state) 16) ∷ whole (read_off (next_state (next_state draws.old.state)) 100) ∷ []) }
    ensures state { draws.new.state ≡ next_state (next_state draws.old.state) }
{
    let grp = draws.below(16);
    let val = draws.below(100);
    let mut cells = Vec::new(alloc);
    cells.push(whole(id))?;
    cells.push(whole(grp))?;
    cells.push(whole(val))?;
    Ok(Tuple::of(cells))
}

// The rows of table `a`.
#[tactic(auto, using(crate::proofs::DrawLaws::state_after_none, crate::proofs::DrawLaws::state_after_row, crate::proofs::DrawLaws::rows_a_more), unfolding(crate::specs::Made::rows_a))]
fn rows_a(alloc: Global, draws: &mut Draws) -> Result<Vec<Tuple>, OutOfMemory>
    ensures rows { IfOk result (λ rows. rows.items ≡ rows_a draws.old.state) }
    ensures state { OnOk result (draws.new.state ≡ state_after draws.old.state 32) }
{
    let mut rows = Vec::new(alloc);
    for i in 0..16 {
        rows.push(row_a(alloc, draws, i + 1)?)?;
    }
    Ok(rows)
}

// Table `a`.
#[tactic(auto, using(crate::proofs::OutputLaws::typed_a))]
fn table_a(alloc: Global, draws: &mut Draws) -> Result<Table, OutOfMemory>
    ensures table { IfOk result (λ table. table ≡ table_a draws.old.state) }
    ensures state { OnOk result (draws.new.state ≡ state_after draws.old.state 32) }
{
    let rows = rows_a(alloc, draws)?;
    let mut columns = Vec::new(alloc);
    push_column(alloc, &mut columns, b"id", ColType::Int)?;
    push_column(alloc, &mut columns, b"grp", ColType::Int)?;
    push_column(alloc, &mut columns, b"val", ColType::Int)?;
    let name = Word::new(alloc, b"a")?;
    Ok(Table::with_rows(name, columns, rows))
}

// A row of table `b`: its number, and t with the digit of a draw.
fn row_b(alloc: Global, draws: &mut Draws, grp: u8) -> Result<Tuple, OutOfMemory>
    ensures row { IfOk result (λ row. row ≡ whole grp ∷ Text (codes "t" ++ (48 + read_off (next_state draws.old.state) 3) ∷ []) ∷ []) }
    ensures state { draws.new.state ≡ next_state draws.old.state }
{
    let digit = draws.below(3);
    let tag = Word::new(alloc, &[b't', b'0' + digit])?;
    let mut cells = Vec::new(alloc);
    cells.push(whole(grp))?;
    cells.push(Value::Text(tag))?;
    Ok(Tuple::of(cells))
}

// The rows of table `b`.
#[tactic(auto, using(crate::proofs::DrawLaws::state_after_none, crate::proofs::DrawLaws::state_after_more, crate::proofs::DrawLaws::rows_b_more), unfolding(crate::specs::Made::rows_b))]
fn rows_b(alloc: Global, draws: &mut Draws) -> Result<Vec<Tuple>, OutOfMemory>
    ensures rows { IfOk result (λ rows. rows.items ≡ rows_b draws.old.state) }
    ensures state { OnOk result (draws.new.state ≡ state_after draws.old.state 16) }
{
    let mut rows = Vec::new(alloc);
    for j in 0..16 {
        rows.push(row_b(alloc, draws, j)?)?;
    }
    Ok(rows)
}

// Table `b`.
#[tactic(auto, using(crate::proofs::OutputLaws::typed_b))]
fn table_b(alloc: Global, draws: &mut Draws) -> Result<Table, OutOfMemory>
    ensures table { IfOk result (λ table. table ≡ table_b draws.old.state) }
    ensures state { OnOk result (draws.new.state ≡ state_after draws.old.state 16) }
{
    let rows = rows_b(alloc, draws)?;
    let mut columns = Vec::new(alloc);
    push_column(alloc, &mut columns, b"grp", ColType::Int)?;
    push_column(alloc, &mut columns, b"tag", ColType::Text)?;
    let name = Word::new(alloc, b"b")?;
    Ok(Table::with_rows(name, columns, rows))
}

/// The inputs: tables `a` and `b`.
pub(crate) fn inputs(alloc: Global, draws: &mut Draws) -> Result<Items<Table>, OutOfMemory>
    ensures tables { IfOk result (λ tables. tables ≡ inputs draws.old.state) }
    ensures state { OnOk result (draws.new.state ≡ state_after (state_after draws.old.state 32) 16) }
{
    let mut tables = Items::new(alloc);
    tables.push(table_a(alloc, draws)?)?;
    tables.push(table_b(alloc, draws)?)?;
    Ok(tables)
}
