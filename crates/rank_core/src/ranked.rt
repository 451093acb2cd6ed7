ghost use Rattle.std.specs.Prelude.{◌≡◌, OnErr, OnOk, map};
ghost use Rattle.query_core.specs.Answers.{ascending, comes_before};
ghost use Rattle.rank_core.specs.View.{ranked_query};

use crate::rank_key::{RankKey, key_order};
use query_core::Query;
use value_core::OutOfMemory;

/// An answer with its key.
#[derive(Debug, Drop)]
pub struct Ranked {
    pub key: RankKey,
    pub query: Query,
}

/// Puts answers into the ascending order of their keys; where memory is wanting, they stay as they were.
pub fn sort(list: &mut Vec<Ranked>) -> Result<(), OutOfMemory>
    ensures sorted { OnOk result (map ranked_query list.new.items ≡ ascending comes_before (map ranked_query list.old.items)) }
    ensures unchanged { OnErr result (list.new.items ≡ list.old.items) }
{
    Ok(list.sort_by(|a, b| key_order(&a.key, &b.key))?)
}
