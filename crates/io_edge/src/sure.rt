ghost use Rattle.std.specs.Prelude.{◌≡◌, ℕ, List, Ok, Some, None, length};
ghost use Rattle.io_edge.specs.Files.{bytes_or_none};

use crate::fault::{Failed, FolderFault};
use crate::files::{bytes_of, copy_within};
use crate::folder::Folder;
use crate::sink::Sink;
use std::alloc::Global;
use std::marker::Model;
use value_core::Bytes;

/// A folder in memory whose reads never fail; a name that it doesn't hold is an empty file.
#[derive(Drop)]
pub struct SureFolder {
    files: Vec<(Bytes, Bytes)>,
}

impl Model for SureFolder {
    ghost use Rattle.std.specs.Prelude.{List, ℕ};

    ghost Value = { List (List ℕ × List ℕ) };

    ghost view = { λ f. f.files.items };
}

impl SureFolder {
    /// A folder of these files, each a name and its bytes.
    pub fn new(files: Vec<(Bytes, Bytes)>) -> SureFolder
        ensures { result ≡ files.items }
    {
        SureFolder { files }
    }
}

impl Folder for SureFolder {
    ghost told = { λ files name. Some (bytes_or_none files name) };

    ghost faults = { λ files name. 0 };

    fn read(&mut self, alloc: Global, name: &[u8], limit: usize) -> Result<Vec<u8>, FolderFault> {
        match bytes_of(&self.files, name) {
            Some(bytes) => copy_within(alloc, bytes, limit),
            None => Ok(Vec::new(alloc)),
        }
    }
}

/// A sink that takes each piece whole, keeps nothing and never fails.
#[derive(Clone, Copy, Debug, PartialEq, Eq)]
pub struct SureSink;

impl Sink for SureSink {
    ghost written = { λ s. None };

    ghost faults = { λ s. 0 };

    fn write(&mut self, bytes: &[u8]) -> Result<usize, Failed>
        ensures whole { result ≡ Ok (length bytes.now) }
    {
        Ok(bytes.len())
    }
}
