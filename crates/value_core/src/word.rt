ghost use Rattle.std.specs.Prelude.{◌≡◌, length, IfOk, IfErr};
ghost use Rattle.value_core.specs.Word.{IsWord};
ghost use Rattle.value_core.specs.declared.word.WordFault.TheVariants.{BadLength};

use crate::fault::OutOfMemory;
use std::alloc::Global;
use std::marker::Model;
use thiserror::Error;

/// The most bytes of a text or a name.
pub const LONGEST_WORD: usize = 64;

/// A text of 1 to 64 bytes.
#[derive(Debug, Drop)]
pub struct Word {
    items: Vec<u8>,
}

impl Model for Word {
    ghost use Rattle.std.specs.Prelude.{List, ℕ};
    ghost use Rattle.value_core.specs.Word.{IsWord};

    ghost Value = { List ℕ };

    ghost view = { λ w. w.items.items };

    ghost invariant = { λ w. IsWord w.items.items };
}

/// Why bytes aren't made into a word.
#[derive(Debug, Drop, Error)]
pub enum WordFault {
    #[error("a text has 1 to 64 bytes, not {len}")]
    BadLength { len: usize },
    #[error("out of memory")]
    OutOfMemory,
}

impl Word {
    /// A copy of these bytes, of which there are 1 to 64.
    pub fn new(alloc: Global, from: &[u8]) -> Result<Word, OutOfMemory>
        requires { IsWord from.now }
        ensures { IfOk result (λ w. w ≡ from.now) }
    {
        let items = Vec::from_slice(alloc, from)?;
        Ok(Word { items })
    }

    /// A copy of these bytes, where there are 1 to 64.
    pub fn of(alloc: Global, from: &[u8]) -> Result<Word, WordFault>
        ensures ok { IfOk result (λ w. (w ≡ from.now) × IsWord w) }
        ensures fits { IsWord from.now → IfErr result (λ fault. fault ≡ WordFault.OutOfMemory) }
        ensures bad_length { ¬ IsWord from.now → result ≡ Err (BadLength (length from.now)) }
    {
        if from.is_empty() || from.len() > LONGEST_WORD {
            return Err(WordFault::BadLength { len: from.len() });
        }
        match Vec::from_slice(alloc, from) {
            Ok(items) => Ok(Word { items }),
            Err(_) => Err(WordFault::OutOfMemory),
        }
    }

    pub fn as_slice(&self) -> &[u8]
        ensures bytes { result.now ≡ self.now }
        ensures word { IsWord result.now }
    {
        self.items.as_slice()
    }

    /// An equal word.
    pub fn copy(&self, alloc: Global) -> Result<Word, OutOfMemory>
        ensures { IfOk result (λ w. w ≡ self.now) }
    {
        Word::new(alloc, self.as_slice())
    }
}
