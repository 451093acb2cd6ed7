use std::alloc::AllocFailed;
use value_core::OutOfMemory;

/// Why nothing was filled or found.
#[derive(Clone, Copy, Debug, PartialEq, Eq)]
pub enum FillEnd {
    /// It is more than the budget.
    Heavy,
    OutOfMemory,
}

impl From<OutOfMemory> for FillEnd {
    ghost use Rattle.std.specs.Prelude.{◌≡◌};
    ghost use Rattle.fill_core.specs.declared.end.FillEnd.TheVariants as end;

    ghost from_gives = { λ _ given. given ≡ end.OutOfMemory };

    fn from(_fault: OutOfMemory) -> FillEnd {
        FillEnd::OutOfMemory
    }
}

impl<T: Drop> From<AllocFailed<T>> for FillEnd {
    ghost use Rattle.std.specs.Prelude.{◌≡◌};
    ghost use Rattle.fill_core.specs.declared.end.FillEnd.TheVariants as end;

    ghost from_gives = { λ _ given. given ≡ end.OutOfMemory };

    fn from(_failed: AllocFailed<T>) -> FillEnd {
        FillEnd::OutOfMemory
    }
}
