// What a reader gives, up to a limit.
ghost use Rattle.std.specs.Prelude.{◌≡◌, ◌≢◌, ◌↔◌, ◌≤◌, ◌<◌, Ok, Err, IsOk, IfOk, IfSome, length, nat_le, take, if◌then◌else◌};
ghost use Rattle.io_edge.specs.Rose.{next};

use crate::fault::FolderFault;
use std::alloc::Global;
use std::io;
use std::io::{ErrorKind, Read};

// The bytes that a reader gives, at most one more than `limit`.
fn read_front<R: Read + Drop>(alloc: Global, reader: R, limit: usize) -> io::Result<Vec<u8>>
    ensures { IfOk result (λ v. IfSome (R.remaining reader) (λ bytes. v.items ≡ take (next limit) bytes)) }
{
    let mut bytes = Vec::new(alloc);
    let most = (limit as u64).saturating_add(1);
    reader.take(most).read_to_end(&mut bytes)?;
    Ok(bytes)
}

// The bytes, where there are at most `limit`.
fn within(bytes: Vec<u8>, limit: usize) -> Result<Vec<u8>, FolderFault>
    ensures { result ≡ (if nat_le (length bytes.items) limit then Ok bytes else Err FolderFault.TooLong) }
{
    if bytes.len() <= limit {
        Ok(bytes)
    } else {
        Err(FolderFault::TooLong)
    }
}

/// The fault that an error of the system is: want of memory is that, and all else is a read that failed.
pub(crate) fn fault_of(kind: ErrorKind) -> FolderFault
    ensures memory { kind ≡ ErrorKind.OutOfMemory → result ≡ FolderFault.OutOfMemory }
    ensures failed { kind ≢ ErrorKind.OutOfMemory → result ≡ FolderFault.Failed }
{
    if kind == ErrorKind::OutOfMemory {
        FolderFault::OutOfMemory
    } else {
        FolderFault::Failed
    }
}

/// All bytes that a reader gives, where there are at most `limit`.
pub(crate) fn read_within<R: Read + Drop>(
    alloc: Global,
    reader: R,
    limit: usize,
) -> Result<Vec<u8>, FolderFault>
    ensures told { IfSome (R.remaining reader) (λ bytes. IfOk result (λ v. (v.items ≡ bytes) × (length bytes ≤ limit))) }
    ensures long { IfSome (R.remaining reader) (λ bytes. (result ≡ Err FolderFault.TooLong → limit < length bytes) × (limit < length bytes → ¬ IsOk result)) }
    ensures short { IfOk result (λ v. length v.items ≤ limit) }
{
    match read_front(alloc, reader, limit) {
        Ok(bytes) => within(bytes, limit),
        Err(error) => Err(fault_of(error.kind())),
    }
}
