use bit_rows::BitRow;
use value_core::OutOfMemory;

/// A vector of kept rows, with the number of the first predicate that gives it.
#[derive(Debug, Drop)]
pub struct Class {
    pub bits: BitRow,
    pub number: u64,
}

/// Why classes aren't listed.
#[derive(Clone, Copy, Debug, PartialEq, Eq)]
pub enum ClassEnd {
    /// There are more than the limit.
    More,
    OutOfMemory,
}

impl From<OutOfMemory> for ClassEnd {
    ghost use Rattle.std.specs.Prelude.{◌≡◌};
    ghost use Rattle.bit_classes.specs.declared.class.ClassEnd.TheVariants as end;

    ghost from_gives = { λ _ given. given ≡ end.OutOfMemory };

    fn from(_fault: OutOfMemory) -> ClassEnd {
        ClassEnd::OutOfMemory
    }
}
