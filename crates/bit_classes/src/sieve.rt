ghost use Rattle.std.specs.Prelude.{◌≡◌, ℕ, Bool, List, length};
ghost use Rattle.bit_classes.specs.declared.join.Join as joins;

use crate::join::Join;
use bit_rows::BitRow;

/// Tells which vectors of one width may be wanted of predicates that are joined by AND, and of those that are joined by OR.
pub trait Sieve {
    // The width, and what may be wanted.
    ghost width: { Self → ℕ };

    ghost may: { Self → joins.Join → List Bool → Bool };

    /// Whether a vector may be wanted. It takes no memory.
    fn may(&self, join: Join, row: &BitRow) -> bool
        ensures { result ≡ may self.now join row.now };
}

/// All vectors of a width may be wanted.
#[derive(Clone, Copy, Debug)]
pub struct Every {
    pub width: usize,
}

impl Sieve for Every {
    ghost use Rattle.std.specs.Prelude.{true};

    ghost width = { λ e. e.width };

    ghost may = { λ e join vector. true };

    fn may(&self, _join: Join, _row: &BitRow) -> bool {
        true
    }
}
