//! Values as SQL sees them: NULL, whole numbers of 64 bits and texts, with three-valued comparison.
#![tactic(auto)]

mod bytes;
mod comparison;
mod fault;
mod integer;
mod items;
mod text;
mod value;
mod word;

pub use bytes::Bytes;
pub use comparison::{CmpOp, Truth, compare, order, order_is_total, same, same_is_equality};
pub use fault::{OutOfMemory, held};
pub use integer::read_int;
pub use items::{concatenated, copied};
pub use text::is_text;
pub use value::{ColType, Value};
pub use word::{LONGEST_WORD, Word, WordFault};
