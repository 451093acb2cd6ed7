ghost use Rattle.std.specs.Prelude.{◌≡◌, ℕ, Bool};
ghost use Rattle.value_core.specs.declared.value.Value as values;
ghost use Rattle.predicate_core.specs.Truth.{value_at};

use table_core::Tuple;
use value_core::{Value, same};

/// What may stand behind a row of an output: a row, or what stands for rows.
pub trait Candidate {
    // Whether it may have a value in the column at a place.
    ghost has: { Self → ℕ → values.Value → Bool };

    /// Whether it may have a value in the column at a place.
    fn has(&self, at: usize, value: &Value) -> bool
        ensures { result ≡ has self.now at value.now };
}

impl Candidate for Tuple {
    ghost use Rattle.map_walk.specs.Readings.{row_has};

    ghost has = { row_has };

    fn has(&self, at: usize, value: &Value) -> bool {
        match self.cells().get(at) {
            Some(cell) => same(cell, value),
            None => same(&Value::Null, value),
        }
    }
}

/// Whether a candidate may have at a place the value that a row has at another, NULL where it has none.
pub(crate) fn has_at<C: Candidate>(candidate: &C, at: usize, row: &[Value], place: usize) -> bool
    ensures { result ≡ C.has candidate.now at (value_at row.now place) }
{
    match row.get(place) {
        Some(value) => candidate.has(at, value),
        None => candidate.has(at, &Value::Null),
    }
}
