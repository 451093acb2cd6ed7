//! Rows of bits, packed into words: AND, OR and equality take one step for 64 bits.
#![tactic(auto)]

mod bit_row;
mod words;

pub use bit_row::BitRow;
