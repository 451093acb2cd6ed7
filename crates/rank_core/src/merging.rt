ghost use Rattle.std.specs.Prelude.{◌≡◌, ◌++◌, All, IfOk};
ghost use Rattle.std.specs.List.{flat_map};
ghost use Rattle.query_core.specs.Answers.{ascending, comes_before};
ghost use Rattle.rank_core.specs.View.{ranked_queries, ascends};

use crate::rank_key::before;
use crate::ranked::Ranked;
use itertools::Itertools;
use std::alloc::Global;
use value_core::OutOfMemory;

// Two ascending lists as one; of two that tie, that of the first list comes first.
fn merge_two(
    alloc: Global,
    first: Vec<Ranked>,
    second: Vec<Ranked>,
) -> Result<Vec<Ranked>, OutOfMemory>
    requires first { ascends (ranked_queries first) }
    requires second { ascends (ranked_queries second) }
    ensures { IfOk result (λ both. ranked_queries both ≡ ascending comes_before (ranked_queries first ++ ranked_queries second)) }
{
    let both = first
        .into_iter()
        .merge_by(second, |a, b| !before(&b.key, &a.key));
    Ok(both.collect(alloc)?)
}

/// One ascending list of all that ascending lists have; those that tie stand in the order of the lists.
///
/// Where memory is wanting, the lists are dropped.
pub fn merge(alloc: Global, mut lists: Vec<Vec<Ranked>>) -> Result<Vec<Ranked>, OutOfMemory>
    requires { All (λ list. ascends (ranked_queries list)) lists.items }
    ensures { IfOk result (λ out. ranked_queries out ≡ ascending comes_before (flat_map ranked_queries lists.items)) }
{
    let half = lists.len() / 2;
    if half == 0 {
        return Ok(lists.pop().unwrap_or(Vec::new(alloc)));
    }
    let later = lists.split_off(half)?;
    merge_two(alloc, merge(alloc, lists)?, merge(alloc, later)?)
}
