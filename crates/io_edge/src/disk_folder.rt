ghost use Rattle.std.specs.Prelude.{◌≡◌, ◌≢◌, ◌≤◌, ◌<◌, Err, None, IfOk, IfSome, length};
ghost use Rattle.io_edge.specs.declared.fault.FolderFault.TheVariants.{Failed, TooLong};
ghost use Rattle.io_edge.specs.Rose.{Rose};

use crate::fault::FolderFault;
use crate::folder::Folder;
use crate::reader::{fault_of, read_within};
use std::alloc::Global;
use std::fs::File;
use std::io;
use std::io::ErrorKind;
use std::rt::Files;

/// The files of the system, by their paths, with one count of faults for all of them.
#[derive(Drop)]
pub struct DiskFolder<R: Files + Drop> {
    files: R,
    faults: u64,
}

impl<R: Files + Drop> DiskFolder<R> {
    /// The folder that the system has, with no faults yet.
    pub fn new(files: R) -> DiskFolder<R>
        ensures { result.faults ≡ 0 }
    {
        DiskFolder { files, faults: 0 }
    }
}

impl<R: Files + Drop> Folder for DiskFolder<R> {
    ghost told = { λ folder name. None };

    ghost faults = { λ folder name. folder.faults };

    fn read(&mut self, alloc: Global, name: &[u8], limit: usize) -> Result<Vec<u8>, FolderFault>
        ensures short { IfOk result (λ v. length v.items ≤ limit) }
        ensures kept { self.old.faults ≤ self.new.faults }
        ensures failed { result ≡ Err Failed → Rose self.old.faults self.new.faults }
        ensures still { result ≢ Err Failed → self.new.faults ≡ self.old.faults }

        // What is answered is the whole of a file that was opened, and too long only where that file is.
        ensures whole { IfOk result (λ v. (file : R.File) × IfSome (R.File.remaining file) (λ bytes. v.items ≡ bytes)) }
        ensures long { result ≡ Err TooLong → (file : R.File) × IfSome (R.File.remaining file) (λ bytes. limit < length bytes) }
    {
        let answer = match open(&self.files, name) {
            Ok(file) => read_within(alloc, file, limit),
            Err(error) => Err(fault_of(error.kind())),
        };
        if matches!(answer, Err(FolderFault::Failed)) {
            self.faults = self.faults.saturating_add(1);
        }
        answer
    }
}

// The file of a path.
fn open<R: Files>(files: &R, name: &[u8]) -> io::Result<R::File> {
    match std::str::from_utf8(name) {
        Ok(path) => File::open(files, path),
        Err(_) => Err(io::Error::from(ErrorKind::InvalidFilename)),
    }
}
