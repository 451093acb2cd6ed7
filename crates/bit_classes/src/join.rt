ghost use Rattle.std.specs.Prelude.{◌≡◌, length, IfOk};
ghost use Rattle.bit_classes.specs.Vectors.{combined};

use bit_rows::BitRow;
use std::alloc::Global;
use value_core::OutOfMemory;

/// AND or OR.
#[derive(Clone, Copy, Debug, PartialEq, Eq)]
pub enum Join {
    And,
    Or,
}

/// Two rows of one length, combined.
pub fn combine_rows(
    alloc: Global,
    join: Join,
    a: &BitRow,
    b: &BitRow,
) -> Result<BitRow, OutOfMemory>
    requires { length a.now ≡ length b.now }
    ensures { IfOk result (λ row. row ≡ combined join a.now b.now) }
{
    match join {
        Join::And => a.and(alloc, b),
        Join::Or => a.or(alloc, b),
    }
}

/// Makes a row, of the length of two others, these two combined.
pub fn set_combined(row: &mut BitRow, join: Join, a: &BitRow, b: &BitRow)
    requires left { length row.old ≡ length a.now }
    requires right { length a.now ≡ length b.now }
    ensures { row.new ≡ combined join a.now b.now }
{
    match join {
        Join::And => row.set_and(a, b),
        Join::Or => row.set_or(a, b),
    }
}
