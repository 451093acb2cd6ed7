use std::alloc::{AllocError, AllocFailed};
use value_core::OutOfMemory;

/// Why something isn't read: its first fault, or no memory.
#[derive(Debug, Drop)]
pub enum Stop<F> {
    Fault(F),
    OutOfMemory,
}

impl<F> From<OutOfMemory> for Stop<F> {
    ghost use Rattle.std.specs.Prelude.{◌≡◌};
    ghost use Rattle.first_fault.specs.declared.stop.Stop.TheVariants as stop;

    ghost from_gives = { λ _ given. given ≡ stop.OutOfMemory };

    fn from(_fault: OutOfMemory) -> Stop<F> {
        Stop::OutOfMemory
    }
}

impl<F> From<AllocError> for Stop<F> {
    ghost use Rattle.std.specs.Prelude.{◌≡◌};
    ghost use Rattle.first_fault.specs.declared.stop.Stop.TheVariants as stop;

    ghost from_gives = { λ _ given. given ≡ stop.OutOfMemory };

    fn from(_error: AllocError) -> Stop<F> {
        Stop::OutOfMemory
    }
}

impl<T: Drop, F> From<AllocFailed<T>> for Stop<F> {
    ghost use Rattle.std.specs.Prelude.{◌≡◌};
    ghost use Rattle.first_fault.specs.declared.stop.Stop.TheVariants as stop;

    ghost from_gives = { λ _ given. given ≡ stop.OutOfMemory };

    fn from(_failed: AllocFailed<T>) -> Stop<F> {
        Stop::OutOfMemory
    }
}
