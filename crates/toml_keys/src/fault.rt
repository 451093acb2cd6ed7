ghost use Rattle.std.specs.Prelude.{◌≡◌, ◌++◌, IfOk};
ghost use Rattle.first_fault.specs.Answer.{Stops, StopsAs};
ghost use Rattle.toml_keys.specs.Keys.{under};
ghost use Rattle.toml_keys.specs.declared.fault.KeyFault.TheVariants.{UnknownKey, MissingKey, BadKey};

use first_fault::Stop;
use std::alloc::{AllocError, Global};
use value_core::Bytes;

/// What is wrong with the keys of a table: one isn't known, one that has to be there is missing, or a value isn't as it
/// has to be.
#[derive(Debug, Drop)]
pub enum KeyFault {
    UnknownKey { key: Bytes },
    MissingKey { key: Bytes },
    BadKey { key: Bytes },
}

// That this key isn't known.
pub(crate) fn unknown_key(alloc: Global, key: &str) -> Stop<KeyFault>
    ensures { Stops result (UnknownKey key.now) }
{
    match Bytes::of(alloc, key.as_bytes()) {
        Ok(key) => Stop::Fault(KeyFault::UnknownKey { key }),
        Err(_) => Stop::OutOfMemory,
    }
}

// That this key is missing.
pub(crate) fn missing_key(alloc: Global, key: &str) -> Stop<KeyFault>
    ensures { Stops result (MissingKey key.now) }
{
    match Bytes::of(alloc, key.as_bytes()) {
        Ok(key) => Stop::Fault(KeyFault::MissingKey { key }),
        Err(_) => Stop::OutOfMemory,
    }
}

/// That the value at this key isn't as it has to be.
pub fn bad_key(alloc: Global, key: &str) -> Stop<KeyFault>
    ensures { Stops result (BadKey key.now) }
{
    match Bytes::of(alloc, key.as_bytes()) {
        Ok(key) => Stop::Fault(KeyFault::BadKey { key }),
        Err(_) => Stop::OutOfMemory,
    }
}

// A key behind this prefix.
fn key_under(alloc: Global, prefix: &str, key: &Bytes) -> Result<Bytes, AllocError>
    ensures { IfOk result (λ longer. longer ≡ prefix.now ++ key.now) }
{
    let mut items = Vec::from_slice(alloc, prefix.as_bytes())?;
    items.extend_from_slice(key.as_slice())?;
    Ok(Bytes::from_vec(items))
}

// The same fault, with its key behind this prefix.
fn fault_under(alloc: Global, prefix: &str, fault: &KeyFault) -> Result<KeyFault, AllocError>
    ensures { IfOk result (λ renamed. renamed ≡ under prefix.now fault.now) }
{
    match fault {
        KeyFault::UnknownKey { key } => Ok(KeyFault::UnknownKey {
            key: key_under(alloc, prefix, key)?,
        }),
        KeyFault::MissingKey { key } => Ok(KeyFault::MissingKey {
            key: key_under(alloc, prefix, key)?,
        }),
        KeyFault::BadKey { key } => Ok(KeyFault::BadKey {
            key: key_under(alloc, prefix, key)?,
        }),
    }
}

/// The same stop, with the key of its fault behind this prefix.
pub fn under(alloc: Global, prefix: &str, stop: Stop<KeyFault>) -> Stop<KeyFault>
    ensures { StopsAs (under prefix.now) stop result }
{
    match stop {
        Stop::OutOfMemory => Stop::OutOfMemory,
        Stop::Fault(fault) => match fault_under(alloc, prefix, &fault) {
            Ok(renamed) => Stop::Fault(renamed),
            Err(_) => Stop::OutOfMemory,
        },
    }
}
