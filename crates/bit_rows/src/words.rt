ghost use Rattle.std.specs.Prelude.{◌≡◌, ◌<◌, ◌≤◌, ◌^◌, length, take, count_ones, IfOk, bit_and, bit_or};
ghost use Rattle.bit_rows.specs.Packing.{packed};
ghost use Rattle.std.specs.List.{sum_by};
ghost use lib.Lanes.{mask_l, zip2};

use std::alloc::Global;
use value_core::OutOfMemory;

/// How many bits a word has.
pub const WORD_BITS: usize = 64;

// The word of up to 64 bits, the first the lowest.
fn word_of(bits: &[bool]) -> u64
    requires { length bits.now ≤ 64 }
    ensures { result ≡ mask_l bits.now }
{
    let mut word = 0;
    for i in (0..bits.len()).rev() {
        word = 2 * word + u64::from(bits[i]);
    }
    word
}

/// How many bits are set in some words.
pub fn ones_in(words: &[u64]) -> usize
    requires { sum_by count_ones words.now < 2 ^ 64 }
    ensures { result ≡ sum_by count_ones words.now }
{
    let mut total = 0;
    for word in words {
        total += word.count_ones() as usize;
    }
    total
}

/// How many bits are set in both of two lists of words.
pub fn ones_in_both(a: &[u64], b: &[u64]) -> usize
    requires lengths { length a.now ≡ length b.now }
    requires fits { sum_by count_ones (zip2 (λ x y. bit_and x y) a.now b.now) < 2 ^ 64 }
    ensures { result ≡ sum_by count_ones (zip2 (λ x y. bit_and x y) a.now b.now) }
{
    let mut total = 0;
    for k in 0..a.len() {
        total += (a[k] & b[k]).count_ones() as usize;
    }
    total
}

// The word of the first bits of a row.
#[tactic(auto, using(std::proofs::lemmas::List::take_min))]
fn first_word(bits: &[bool]) -> u64
    ensures { result ≡ mask_l (take 64 bits.now) }
{
    word_of(&bits[..WORD_BITS.min(bits.len())])
}

/// The words of a row of bits.
pub fn pack(alloc: Global, bits: &[bool]) -> Result<Vec<u64>, OutOfMemory>
    ensures { IfOk result (λ words. words.items ≡ packed bits.now) }
{
    let count = bits.len().div_ceil(WORD_BITS);
    let mut words = Vec::with_capacity(alloc, count)?;
    for k in 0..count {
        let word = first_word(&bits[k * WORD_BITS..]);
        words.push(word)?;
    }
    Ok(words)
}

/// The AND of two lists of words, word by word.
pub fn and_words(alloc: Global, a: &[u64], b: &[u64]) -> Result<Vec<u64>, OutOfMemory>
    requires { length a.now ≡ length b.now }
    ensures { IfOk result (λ words. words.items ≡ zip2 (λ x y. bit_and x y) a.now b.now) }
{
    let mut words = Vec::with_capacity(alloc, a.len())?;
    for k in 0..a.len() {
        words.push(a[k] & b[k])?;
    }
    Ok(words)
}

/// The OR of two lists of words, word by word.
pub fn or_words(alloc: Global, a: &[u64], b: &[u64]) -> Result<Vec<u64>, OutOfMemory>
    requires { length a.now ≡ length b.now }
    ensures { IfOk result (λ words. words.items ≡ zip2 (λ x y. bit_or x y) a.now b.now) }
{
    let mut words = Vec::with_capacity(alloc, a.len())?;
    for k in 0..a.len() {
        words.push(a[k] | b[k])?;
    }
    Ok(words)
}

/// Writes the AND of two lists of words, word by word.
pub fn set_and_words(out: &mut [u64], a: &[u64], b: &[u64])
    requires left { length out.old ≡ length a.now }
    requires right { length a.now ≡ length b.now }
    ensures { out.new ≡ zip2 (λ x y. bit_and x y) a.now b.now }
{
    for k in 0..a.len() {
        out[k] = a[k] & b[k];
    }
}

/// Writes the OR of two lists of words, word by word.
pub fn set_or_words(out: &mut [u64], a: &[u64], b: &[u64])
    requires left { length out.old ≡ length a.now }
    requires right { length a.now ≡ length b.now }
    ensures { out.new ≡ zip2 (λ x y. bit_or x y) a.now b.now }
{
    for k in 0..a.len() {
        out[k] = a[k] | b[k];
    }
}
