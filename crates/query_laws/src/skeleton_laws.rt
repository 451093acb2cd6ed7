ghost use Rattle.std.specs.Prelude.{◌≡◌, ℕ, List, []};
ghost use Rattle.value_core.specs.declared.value.ColType.{ColType};
ghost use Rattle.predicate_core.specs.Laws.{EachOnce};
ghost use Rattle.query_core.specs.Grammar.{agg_list, skeletons};
ghost use Rattle.query_laws.specs.Laws.{ListsSkeletons, LevelsByOperators};

use table_core::{AggSet, TaskParts};

/// The law of the list of skeletons: a tree stands in it exactly where it is a skeleton of the task.
#[tactic(auto, using(crate::proofs::SkeletonLaws::lists_skeletons))]
pub fn skeletons_are_listed(task: &TaskParts)
    ensures { ListsSkeletons task.now }
{}

/// The law of the levels: each has exactly the skeletons of so many operators.
#[tactic(auto, using(crate::proofs::SkeletonLaws::levels_by_operators))]
pub fn levels_are_by_operators(task: &TaskParts)
    ensures { LevelsByOperators task.now }
{}

/// The law of the list of skeletons: each stands once in it.
#[tactic(auto, using(crate::proofs::SkeletonOnceLaws::skeletons_once))]
pub fn skeletons_are_once(task: &TaskParts)
    ensures { EachOnce (skeletons task.now) }
{}

/// The law of a task that allows no aggregate: none is listed.
pub fn no_aggregate_is_listed()
    ensures { (types : List ColType) (keys : List ℕ) → agg_list AggSet.NONE types keys ≡ [] }
{}
