//! Rank: the key of a query, the order of keys, and answers in ascending order.
#![tactic(auto)]

mod body;
mod col_types;
mod hole_numbers;
mod merging;
mod rank_key;
mod ranked;

pub use merging::merge;
pub use rank_key::{RankKey, before, key, key_order};
pub use ranked::{Ranked, sort};
