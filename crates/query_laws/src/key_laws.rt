ghost use Rattle.std.specs.Prelude.{Bool, List};
ghost use Rattle.std.specs.Cmp.{IsTotalOrder};
ghost use Rattle.predicate_core.specs.Laws.{EachOnce};
ghost use Rattle.query_core.specs.Rank.{key_order};
ghost use Rattle.query_core.specs.Answers.{answers};
ghost use Rattle.query_laws.specs.Laws.{plain_queries, KeysApart, TiesAreEqual, Ascends, AscendingPermutes};

use table_core::TaskParts;

/// The law of the grammar: each query stands once in it.
#[tactic(auto, using(crate::proofs::QueryLaws::queries_once))]
pub fn queries_are_once(task: &TaskParts)
    ensures { EachOnce (plain_queries task.now) }
{}

/// The law of keys: two different queries of a task have different keys.
#[tactic(auto, using(crate::proofs::KeyLaws::keys_apart))]
pub fn keys_are_apart(task: &TaskParts)
    ensures { KeysApart task.now }
{}

/// The law of the order of keys: it is total, and only equal keys tie.
#[tactic(auto, using(query_core::proofs::KeyLaws::key_order_total, crate::proofs::KeyLaws::ties_equal))]
pub fn key_order_is_total()
    ensures total { IsTotalOrder key_order }
    ensures ties { TiesAreEqual key_order }
{}

/// The law of the ascending order: a list in it has the same elements, each as often.
#[tactic(auto, using(query_core::proofs::AscendingLaws::ascending_permutes))]
pub fn ascending_keeps_elements<T>()
    ensures { (first : T → T → Bool) (xs : List T) → AscendingPermutes first xs }
{}

/// The law of the answers: each comes strictly before each later one.
#[tactic(auto, using(crate::proofs::AnswerLaws::answers_ascending))]
pub fn answers_ascend(task: &TaskParts)
    ensures { Ascends (answers task.now) }
{}
