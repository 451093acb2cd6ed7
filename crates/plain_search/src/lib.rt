//! Plain listing: the skeletons are gone through one by one, and their answers are put into order.
#![tactic(auto)]

mod search;

pub use search::{few, plain, plain_over};
