ghost use Rattle.query_laws.specs.Filled.{BaseFilled, FilterFilled, PairFilled, GroupFilled, UnionFilled};

use table_core::TaskParts;

/// The law of standard fillings: those of a skeleton are those of its parts, put together.
#[tactic(auto, using(crate::proofs::FilledLaws::base_filled, crate::proofs::FilledLaws::group_filled, crate::proofs::FilledLaws::union_filled))]
pub fn fillings_are_by_parts(task: &TaskParts)
    ensures bases { BaseFilled task.now }
    ensures filters { FilterFilled task.now }
    ensures pairs { PairFilled task.now }
    ensures groups { GroupFilled task.now }
    ensures unions { UnionFilled task.now }
{}
