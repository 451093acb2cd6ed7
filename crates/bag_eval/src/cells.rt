ghost use Rattle.std.specs.Prelude.{◌≡◌, ◌∷◌, ◌++◌, [], IfOk, OnOk, replicate};
ghost use Rattle.value_core.specs.declared.value.Value.TheVariants.{Null};

use std::alloc::Global;
use table_core::Tuple;
use value_core::{OutOfMemory, Value};

// Appends copies of these values.
pub(crate) fn push_cells(
    alloc: Global,
    out: &mut Vec<Value>,
    cells: &[Value],
) -> Result<(), OutOfMemory>
    ensures { OnOk result (out.new.items ≡ out.old.items ++ cells.now) }
{
    for cell in cells {
        out.push(cell.copy(alloc)?)?;
    }
    Ok(())
}

// Appends so many NULLs.
fn push_nulls(out: &mut Vec<Value>, count: usize) -> Result<(), OutOfMemory>
    ensures { OnOk result (out.new.items ≡ out.old.items ++ replicate count Null) }
{
    for _ in 0..count {
        out.push(Value::Null)?;
    }
    Ok(())
}

// A row with another behind it.
pub(crate) fn pair_of(alloc: Global, left: &[Value], right: &[Value]) -> Result<Tuple, OutOfMemory>
    ensures { IfOk result (λ t. t ≡ left.now ++ right.now) }
{
    let mut cells = Vec::new(alloc);
    push_cells(alloc, &mut cells, left)?;
    push_cells(alloc, &mut cells, right)?;
    Ok(Tuple::of(cells))
}

// A row with so many NULLs behind it.
pub(crate) fn padded(alloc: Global, row: &[Value], count: usize) -> Result<Tuple, OutOfMemory>
    ensures { IfOk result (λ t. t ≡ row.now ++ replicate count Null) }
{
    let mut cells = Vec::new(alloc);
    push_cells(alloc, &mut cells, row)?;
    push_nulls(&mut cells, count)?;
    Ok(Tuple::of(cells))
}

// A row with one value behind it.
pub(crate) fn with_value(alloc: Global, row: &[Value], value: Value) -> Result<Tuple, OutOfMemory>
    ensures { IfOk result (λ t. t ≡ row.now ++ value ∷ []) }
{
    let mut cells = Vec::new(alloc);
    push_cells(alloc, &mut cells, row)?;
    cells.push(value)?;
    Ok(Tuple::of(cells))
}
