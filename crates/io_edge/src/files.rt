// Files in memory, each a name and its bytes.
ghost use Rattle.std.specs.Prelude.{◌≡◌, ◌≢◌, ◌≤◌, ◌<◌, Some, None, MatchOption, length, Err, IfOk};
ghost use Rattle.io_edge.specs.declared.fault.FolderFault.TheVariants.{Failed, TooLong};
ghost use Rattle.io_edge.specs.Files.{place_of, bytes_of};

use crate::fault::FolderFault;
use std::alloc::Global;
use value_core::Bytes;

// The number of files that stand before the first of this name.
pub(crate) fn place_of(files: &[(Bytes, Bytes)], name: &[u8]) -> usize
    ensures place { result ≡ place_of files.now name.now }
    ensures within { result ≤ length files.now }
{
    for (place, file) in files.iter().enumerate() {
        if file.0.as_slice() == name {
            return place;
        }
    }
    files.len()
}

// The bytes of the first file of this name.
pub(crate) fn bytes_of<'a>(files: &'a [(Bytes, Bytes)], name: &[u8]) -> Option<&'a Bytes>
    ensures { MatchOption result (bytes_of files.now name.now ≡ None) (λ b. bytes_of files.now name.now ≡ Some b.now) }
{
    match files.get(place_of(files, name)) {
        Some(file) => Some(&file.1),
        None => None,
    }
}

// A copy of these bytes, where there are at most `limit`.
pub(crate) fn copy_within(
    alloc: Global,
    bytes: &Bytes,
    limit: usize,
) -> Result<Vec<u8>, FolderFault>
    ensures ok { IfOk result (λ v. (v.items ≡ bytes.now) × (length bytes.now ≤ limit)) }
    ensures long { result ≡ Err TooLong → limit < length bytes.now }
    ensures sure { result ≢ Err Failed }
{
    if bytes.as_slice().len() > limit {
        return Err(FolderFault::TooLong);
    }
    match Vec::from_slice(alloc, bytes.as_slice()) {
        Ok(copy) => Ok(copy),
        Err(_) => Err(FolderFault::OutOfMemory),
    }
}
