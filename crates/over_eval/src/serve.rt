ghost use Rattle.std.specs.Prelude.{◌≡◌, Some, IfOk};
ghost use Rattle.table_core.specs.Rows.{types_of};
ghost use Rattle.query_core.specs.Grammar.{maps};
ghost use Rattle.over_eval.specs.Live.{serves_by};
ghost use Rattle.over_eval.specs.Told.{cells_have};

use crate::row::AbsRow;
use map_walk::{Candidate, has_reading};
use std::alloc::Global;
use table_core::Table;
use value_core::{ColType, OutOfMemory, Value, same};

impl Candidate for AbsRow {
    ghost has = { cells_have };

    fn has(&self, at: usize, value: &Value) -> bool {
        match self.cells().get(at) {
            Some(cell) => cell.covers(value),
            None => same(&Value::Null, value),
        }
    }
}

/// Whether abstract rows of columns of these types can serve an output by one of the grammar's maps.
#[tactic(auto, using(crate::proofs::RowLaws::serves_where_read))]
pub fn serves(
    alloc: Global,
    types: &[ColType],
    over: &[AbsRow],
    output: &Table,
) -> Result<bool, OutOfMemory>
    ensures { IfOk result (λ b. b ≡ serves_by (maps types.now (types_of output.now)) output.now.rows (Some over.now)) }
{
    has_reading(alloc, types, over, output)
}
