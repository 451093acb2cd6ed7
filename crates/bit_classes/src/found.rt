ghost use Rattle.std.specs.Prelude.{◌≡◌, ◌≤◌, ◌∷◌, [], length, IfOk, IfErr};
ghost use Rattle.bit_classes.specs.Walk.{Sees, is_known};

use crate::class::{Class, ClassEnd};
use bit_rows::BitRow;
use indexmap::IndexMap;
use std::alloc::Global;
use std::marker::Model;

/// The classes of vectors of one width that were found so far: at most `limit`, in the order in which they were found.
#[derive(Drop)]
pub struct Found {
    alloc: Global,
    numbers: IndexMap<BitRow, u64>,
    width: usize,
    limit: u64,
}

impl Model for Found {
    ghost use Rattle.std.specs.Prelude.{◌≤◌, length, map};
    ghost use Rattle.bit_classes.specs.Walk.{Walk, entry_class};

    ghost Value = { Walk };

    ghost view = { λ f. record { classes = map entry_class f.numbers.entries; width = f.width; limit = f.limit } };

    ghost invariant = { λ f. length f.numbers.entries ≤ f.limit };
}

impl Found {
    /// No classes yet.
    pub fn new(alloc: Global, width: usize, limit: u64) -> Found
        ensures { result ≡ record { classes = []; width = width; limit = limit } }
    {
        Found {
            alloc,
            numbers: IndexMap::new(alloc),
            width,
            limit,
        }
    }

    pub fn alloc(&self) -> Global {
        self.alloc
    }

    pub fn width(&self) -> usize
        ensures { result ≡ self.now.width }
    {
        self.width
    }

    /// Whether a row is that of a class.
    #[tactic(auto, using(crate::proofs::WalkLaws::found_known))]
    pub fn knows(&self, row: &BitRow) -> bool
        ensures { result ≡ is_known self.now.classes row.now }
    {
        self.numbers.contains_key(row)
    }

    /// Sees a row under a number: where it is new, it is a class of that number.
    pub fn see(&mut self, row: &BitRow, number: u64) -> Result<(), ClassEnd>
        ensures { Sees self.old ((number, row.now) ∷ []) self.new result }
    {
        if self.numbers.contains_key(row) {
            return Ok(());
        }
        if self.numbers.len() as u64 >= self.limit {
            return Err(ClassEnd::More);
        }
        let row = row.copy(self.alloc)?;
        match self.numbers.insert(row, number) {
            Ok(_) => Ok(()),
            Err(_) => Err(ClassEnd::OutOfMemory),
        }
    }

    /// The classes in the order in which they were found.
    pub fn into_classes(self) -> Result<Vec<Class>, ClassEnd>
        ensures classes { IfOk result (λ found. found.items ≡ self.classes) }
        ensures within { length self.classes ≤ self.limit }
        ensures failed { IfErr result (λ end. end ≡ ClassEnd.OutOfMemory) }
    {
        let alloc = self.alloc;
        self.numbers
            .into_iter()
            .map(|(bits, number)| Class { bits, number })
            .collect(alloc)
            .map_err(|_| ClassEnd::OutOfMemory)
    }
}
