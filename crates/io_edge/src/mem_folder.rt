ghost use Rattle.std.specs.Prelude.{◌≡◌, ◌≢◌, ◌↔◌, replicate, ◌≤◌, ◌<◌, ◌+◌, ℕ, List, IsTrue, true, false, Some, MatchOption, length, Err, IsOk, IfOk, IfSome};
ghost use Rattle.io_edge.specs.declared.fault.FolderFault.TheVariants.{Failed, TooLong};
ghost use Rattle.io_edge.specs.Rose.{Rose, next};
ghost use Rattle.io_edge.specs.Files.{bytes_of};
ghost use Rattle.io_edge.specs.MemFolder.{count_of, raised, read_fails, after_read};

use crate::fault::FolderFault;
use crate::files::{bytes_of, copy_within, place_of};
use crate::folder::Folder;
use crate::numbers::is_among;
use std::alloc::Global;
use std::marker::Model;
use value_core::{Bytes, OutOfMemory};

/// A folder in memory whose reads fail at chosen numbers, and at names that it doesn't hold.
#[derive(Drop)]
pub struct MemFolder {
    files: Vec<(Bytes, Bytes)>,
    counts: Vec<u64>,
    fails: Vec<u64>,
    reads: u64,
}

impl Model for MemFolder {
    ghost use Rattle.std.specs.Prelude.{◌≡◌, ◌+◌, length};
    ghost use Rattle.io_edge.specs.MemFolder.{MemFiles};

    ghost Value = { MemFiles };

    ghost view = { λ m. record { files = m.files.items; counts = m.counts.items; fails = m.fails.items; reads = m.reads } };

    ghost invariant = { λ m. length m.counts.items ≡ length m.files.items + 1 };
}

impl MemFolder {
    /// A folder of these files, each a name and its bytes, whose reads fail at these numbers.
    pub fn new(
        alloc: Global,
        files: Vec<(Bytes, Bytes)>,
        fails: Vec<u64>,
    ) -> Result<MemFolder, OutOfMemory>
        ensures { IfOk result (λ m. m ≡ record { files = files.items; counts = replicate (length files.items + 1) 0; fails = fails.items; reads = 0 }) }
    {
        let counts = Vec::from_elem(alloc, 0, files.len() + 1)?;
        Ok(MemFolder {
            files,
            counts,
            fails,
            reads: 0,
        })
    }

    // The bytes that the next read of this name finds, unless it fails.
    fn next_bytes(&self, name: &[u8]) -> Option<&Bytes>
        ensures { MatchOption result (read_fails self.now name.now ≡ true) (λ b. (read_fails self.now name.now ≡ false) × (bytes_of self.now.files name.now ≡ Some b.now)) }
    {
        if is_among(&self.fails, self.reads.saturating_add(1)) {
            return None;
        }
        bytes_of(&self.files, name)
    }

    // Counts one read.
    fn count_read(&mut self)
        ensures { self.new ≡ record { files = self.old.files; counts = self.old.counts; fails = self.old.fails; reads = next self.old.reads } }
    {
        self.reads = self.reads.saturating_add(1);
    }

    // Counts one fault of a name.
    fn raise(&mut self, name: &[u8])
        ensures raised { self.new ≡ record { files = self.old.files; counts = raised self.old name.now; fails = self.old.fails; reads = self.old.reads } }
        ensures rose { Rose (count_of self.old name.now) (count_of self.new name.now) }
        ensures kept { (n : List ℕ) → count_of self.old n ≤ count_of self.new n }
    {
        let place = place_of(&self.files, name);
        self.counts[place] = self.counts[place].saturating_add(1);
    }
}

impl Folder for MemFolder {
    ghost told = { λ m name. bytes_of m.files name };

    ghost faults = { count_of };

    fn read(&mut self, alloc: Global, name: &[u8], limit: usize) -> Result<Vec<u8>, FolderFault>
        ensures told { IfSome (bytes_of self.old.files name.now) (λ bs. IfOk result (λ v. (v.items ≡ bs) × (length bs ≤ limit))) }
        ensures long { IfSome (bytes_of self.old.files name.now) (λ bs. (result ≡ Err TooLong → limit < length bs) × (limit < length bs → ¬ IsOk result)) }
        ensures short { IfOk result (λ v. length v.items ≤ limit) }
        ensures same { (n : List ℕ) → bytes_of self.new.files n ≡ bytes_of self.old.files n }
        ensures kept { (n : List ℕ) → count_of self.old n ≤ count_of self.new n }
        ensures failed { result ≡ Err Failed → Rose (count_of self.old name.now) (count_of self.new name.now) }
        ensures still { result ≢ Err Failed → (n : List ℕ) → count_of self.new n ≡ count_of self.old n }
        ensures fails { (result ≡ Err Failed) ↔ IsTrue (read_fails self.old name.now) }
        ensures after { self.new ≡ after_read self.old name.now }
    {
        match self.next_bytes(name) {
            Some(bytes) => {
                let answer = copy_within(alloc, bytes, limit);
                self.count_read();
                answer
            }
            None => {
                self.raise(name);
                self.count_read();
                Err(FolderFault::Failed)
            }
        }
    }
}
