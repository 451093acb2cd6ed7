ghost use Rattle.std.specs.Prelude.{◌≡◌, Ok, IsErr, MatchOption};

use std::alloc::{AllocError, AllocFailed};

/// A call that takes memory found none.
#[derive(Clone, Copy, Debug, PartialEq, Eq)]
pub struct OutOfMemory;

impl From<AllocError> for OutOfMemory {
    fn from(_error: AllocError) -> OutOfMemory {
        OutOfMemory
    }
}

impl<T: Drop> From<AllocFailed<T>> for OutOfMemory {
    fn from(_failed: AllocFailed<T>) -> OutOfMemory {
        OutOfMemory
    }
}

/// A number that its type holds. One past it would count more than memory holds, so only there memory is said to be wanting.
pub fn held<T>(number: Option<T>) -> Result<T, OutOfMemory>
    ensures { MatchOption number (IsErr result) (λ n. result ≡ Ok n) }
{
    match number {
        Some(number) => Ok(number),
        None => Err(OutOfMemory),
    }
}
