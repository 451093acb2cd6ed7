ghost use Rattle.std.specs.Prelude.{◌≡◌, ◌==◌, length, slice_get, count_by, replicate, true, IfOk};
ghost use Rattle.std.specs.Bool.{Decides};
ghost use Rattle.std.specs.List.{list_all};
ghost use Rattle.bit_rows.specs.Bits.{and_bits, or_bits};

use crate::words::{
    WORD_BITS, and_words, ones_in, ones_in_both, or_words, pack, set_and_words, set_or_words,
};
use std::alloc::Global;
use std::hash::{Hash, Hasher};
use std::marker::Model;
use value_core::OutOfMemory;

/// A row of bits. The bits of its last word past the row's end are zero.
#[derive(Debug, Drop)]
pub struct BitRow {
    words: Vec<u64>,
    len: usize,
}

impl Model for BitRow {
    ghost use Rattle.std.specs.Prelude.{◌≡◌, List, Bool};
    ghost use Rattle.bit_rows.specs.Packing.{packed, unpacked};

    ghost Value = { List Bool };

    ghost view = { λ r. unpacked r.len r.words.items };

    ghost invariant = { λ r. r.words.items ≡ packed (unpacked r.len r.words.items) };
}

impl BitRow {
    /// The row of these bits.
    #[tactic(auto, using(crate::proofs::PackLaws::unpacked_packed))]
    pub fn of(alloc: Global, bits: &[bool]) -> Result<BitRow, OutOfMemory>
        ensures { IfOk result (λ row. row ≡ bits.now) }
    {
        let words = pack(alloc, bits)?;
        Ok(BitRow {
            words,
            len: bits.len(),
        })
    }

    /// The row of so many bits, of which each is set.
    pub fn full(alloc: Global, len: usize) -> Result<BitRow, OutOfMemory>
        ensures { IfOk result (λ row. row ≡ replicate len true) }
    {
        let bits = Vec::from_elem(alloc, true, len)?;
        BitRow::of(alloc, bits.as_slice())
    }

    /// The bits that are set in both rows.
    pub fn and(&self, alloc: Global, other: &BitRow) -> Result<BitRow, OutOfMemory>
        requires { length self.now ≡ length other.now }
        ensures { IfOk result (λ row. row ≡ and_bits self.now other.now) }
    {
        let words = and_words(alloc, self.words.as_slice(), other.words.as_slice())?;
        Ok(BitRow {
            words,
            len: self.len,
        })
    }

    /// The bits that are set in one of the rows, or in both.
    pub fn or(&self, alloc: Global, other: &BitRow) -> Result<BitRow, OutOfMemory>
        requires { length self.now ≡ length other.now }
        ensures { IfOk result (λ row. row ≡ or_bits self.now other.now) }
    {
        let words = or_words(alloc, self.words.as_slice(), other.words.as_slice())?;
        Ok(BitRow {
            words,
            len: self.len,
        })
    }

    /// Makes the row, which has the length of two others, their AND. It takes no memory.
    pub fn set_and(&mut self, a: &BitRow, b: &BitRow)
        requires left { length self.old ≡ length a.now }
        requires right { length a.now ≡ length b.now }
        ensures { self.new ≡ and_bits a.now b.now }
    {
        set_and_words(
            self.words.as_mut_slice(),
            a.words.as_slice(),
            b.words.as_slice(),
        );
    }

    /// Makes the row, which has the length of two others, their OR. It takes no memory.
    pub fn set_or(&mut self, a: &BitRow, b: &BitRow)
        requires left { length self.old ≡ length a.now }
        requires right { length a.now ≡ length b.now }
        ensures { self.new ≡ or_bits a.now b.now }
    {
        set_or_words(
            self.words.as_mut_slice(),
            a.words.as_slice(),
            b.words.as_slice(),
        );
    }

    /// An equal row.
    pub fn copy(&self, alloc: Global) -> Result<BitRow, OutOfMemory>
        ensures { IfOk result (λ row. row ≡ self.now) }
    {
        Ok(BitRow {
            words: Vec::from_slice(alloc, self.words.as_slice())?,
            len: self.len,
        })
    }

    pub fn len(&self) -> usize
        ensures { result ≡ length self.now }
    {
        self.len
    }

    /// The bit at a place, if the row has that place.
    pub fn bit(&self, i: usize) -> Option<bool>
        ensures { result ≡ slice_get self.now i }
    {
        if i < self.len {
            let word = self.words[i / WORD_BITS];
            Some((word >> (i % WORD_BITS)) & 1 == 1)
        } else {
            None
        }
    }

    /// How many bits are set.
    pub fn ones(&self) -> usize
        ensures { result ≡ count_by (λ b. b) self.now }
    {
        // The count fits, since a row has at most as many bits as a number of its length tells.
        let _len = self.len;
        ones_in(self.words.as_slice())
    }

    /// How many bits are set in both rows. It takes no memory.
    pub fn ones_and(&self, other: &BitRow) -> usize
        requires { length self.now ≡ length other.now }
        ensures { result ≡ count_by (λ b. b) (and_bits self.now other.now) }
    {
        // The count fits, since a row has at most as many bits as a number of its length tells.
        let _len = self.len;
        ones_in_both(self.words.as_slice(), other.words.as_slice())
    }

    /// Whether each bit is set.
    pub fn all(&self) -> bool
        ensures { result ≡ list_all (λ b. b) self.now }
    {
        self.ones() == self.len
    }

    /// Whether two rows are the same.
    pub fn equal(&self, other: &BitRow) -> bool
        ensures { Decides result (self.now ≡ other.now) }
    {
        self.len == other.len && self.words.as_slice() == other.words.as_slice()
    }
}

impl PartialEq for BitRow {
    ghost use Rattle.std.proofs.Common.{rules};
    ghost use Rattle.std.specs.Cmp.Rules.{comparing};
    ghost use Rattle.bit_rows.specs.Bits.{same_bits};

    ghost eq = { same_bits };

    ghost laws = { Prim.search (comparing, rules) };

    fn eq(&self, other: &BitRow) -> bool {
        self.equal(other)
    }
}

impl Eq for BitRow {
    ghost use Rattle.std.proofs.Common.{rules};
    ghost use Rattle.std.specs.Cmp.Rules.{comparing};

    ghost laws = { Prim.search (comparing, rules) };
}

impl Hash for BitRow {
    ghost use Rattle.std.proofs.Common.{ap};
    ghost use Rattle.std.specs.List.{flat_map};
    ghost use Rattle.std.specs.Hash as fed;
    ghost use Rattle.std.specs.Cmp.{booleans_Decides};
    ghost use Rattle.std.specs.Cmp.Lexicographic.{pointwise_decides};
    ghost use Rattle.bit_rows.specs.Packing.{packed};

    ghost hash_input = { λ bits. flat_map fed.u64 (packed bits) };

    ghost respects_eq = { λ xs ys same. ap (λ bits. flat_map fed.u64 (packed bits)) ((pointwise_decides booleans_Decides xs ys).0 same) };

    fn hash<H: Hasher>(&self, state: &mut H) {
        u64::hash_slice(self.words.as_slice(), state);
    }
}
