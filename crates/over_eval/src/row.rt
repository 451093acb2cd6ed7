ghost use Rattle.std.specs.Prelude.{◌≡◌, ◌∷◌, ◌++◌, [], IfOk, OnOk};

use over_cells::AbsCell;
use std::alloc::Global;
use std::marker::Model;
use value_core::OutOfMemory;

/// An abstract row: for each column what its cell may be.
#[derive(Debug, Drop)]
pub struct AbsRow {
    cells: Vec<AbsCell>,
}

impl Model for AbsRow {
    ghost use Rattle.std.specs.Prelude.{List};
    ghost use Rattle.over_cells.specs.declared.cell.AbsCell.{AbsCell};

    ghost Value = { List AbsCell };

    ghost view = { λ row. row.cells.items };
}

// Appends copies of these cells.
fn push_cells(alloc: Global, out: &mut Vec<AbsCell>, cells: &[AbsCell]) -> Result<(), OutOfMemory>
    ensures { OnOk result (out.new.items ≡ out.old.items ++ cells.now) }
{
    for cell in cells {
        out.push(cell.copy(alloc)?)?;
    }
    Ok(())
}

impl AbsRow {
    /// The row of these cells.
    pub fn of(cells: Vec<AbsCell>) -> AbsRow
        ensures { result ≡ cells.items }
    {
        AbsRow { cells }
    }

    pub fn cells(&self) -> &[AbsCell]
        ensures { result.now ≡ self.now }
    {
        self.cells.as_slice()
    }

    /// An equal row.
    pub fn copy(&self, alloc: Global) -> Result<AbsRow, OutOfMemory>
        ensures { IfOk result (λ row. row ≡ self.now) }
    {
        let mut cells = Vec::new(alloc);
        push_cells(alloc, &mut cells, self.cells.as_slice())?;
        Ok(AbsRow { cells })
    }

    /// The row of these cells, and then of those.
    pub fn pair(alloc: Global, left: &[AbsCell], right: &[AbsCell]) -> Result<AbsRow, OutOfMemory>
        ensures { IfOk result (λ row. row ≡ left.now ++ right.now) }
    {
        let mut cells = Vec::new(alloc);
        push_cells(alloc, &mut cells, left)?;
        push_cells(alloc, &mut cells, right)?;
        Ok(AbsRow { cells })
    }

    /// This row with one cell more behind it.
    pub fn with_cell(self, cell: AbsCell) -> Result<AbsRow, OutOfMemory>
        ensures { IfOk result (λ row. row ≡ self ++ cell ∷ []) }
    {
        let AbsRow { mut cells } = self;
        cells.push(cell)?;
        Ok(AbsRow { cells })
    }
}
